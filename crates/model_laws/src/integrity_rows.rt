//! Rows on where a thread may ever write by the image: a store with a key in a page of its own, and a client that may send to it.

ghost use Rattle.std.specs.Prelude.{ℕ, ◌≡◌, false, true, All, List, None};
ghost use Rattle.headline.specs.integrity.Runs.{last_of, may_write_at};
ghost use Rattle.model.specs.declared.events.Event.{Event};
ghost use Rattle.model.specs.Acceptance.Accepted.{IsAccepted, first_breach};
ghost use Rattle.model.specs.Acceptance.Devices.{KeepsDevices, is_device_word};
ghost use Rattle.model.specs.Images.Described.{described};
ghost use Rattle.model.specs.Images.Image.{Image, Thread};
ghost use Rattle.model.specs.Images.Places.{offset_of};
ghost use Rattle.model_laws.specs.GalleryKeyStore.{ClientsChangeNoByte, OtherBytesStay, PoolWaitsForTheVault, admin_with};
ghost use Rattle.model_laws.specs.GalleryKeyStore.{is_of_keys, key_store, user_with, vault_with};
ghost use Rattle.model_laws.specs.Vault.{OnlyClientRuns, client, store, vault, vault_bytes};

use headline::authority::events_stay_within_authority;
use headline::integrity::runs_have_integrity;
use headline::invocations::events_go_well;
use headline::parts::threads_never_hold_more;

/// The image has no breach.
#[tactic(auto, unfolding(crate::proofs::Opened::opened))]
pub fn the_vault_is_accepted()
    ensures { first_breach vault_bytes ≡ None }
{}

/// By the image the store may write the key, and the client no byte at all; no page is a device's.
#[tactic(auto, unfolding(crate::proofs::Opened::opened))]
pub fn a_client_may_write_nowhere()
    ensures key { may_write_at vault store (offset_of vault 5) ≡ true }
    ensures client { (place : ℕ) → may_write_at vault client place ≡ false }
    ensures devices { (place : ℕ) → is_device_word vault place ≡ false }
{}

/// Over any events in which the client alone makes steps no byte changes, and so no key.
pub fn a_client_changes_no_key()
    ensures { (bytes : List ℕ) (events : List Event) (place : ℕ) → IsAccepted bytes vault → All (KeepsDevices vault) events
        → OnlyClientRuns events → (last_of vault events).bytes place ≡ (described vault).bytes place }
{
    a_client_may_write_nowhere();
    runs_have_integrity();
}

/// In the gallery's key store, whatever the programs, the vault may write its pool alone, and its clients no byte at all; no page is a device's.
#[tactic(auto, unfolding(crate::proofs::Opened::opened))]
pub fn clients_may_not_write_keys()
    ensures vault { (rest : Image) (vault user admin : Thread) (place : ℕ)
        → may_write_at (key_store rest vault user admin) (vault_with vault) place ≡ is_of_keys place }
    ensures user { (rest : Image) (vault user admin : Thread) (place : ℕ) → may_write_at (key_store rest vault user admin) (user_with user) place ≡ false }
    ensures admin { (rest : Image) (vault user admin : Thread) (place : ℕ) → may_write_at (key_store rest vault user admin) (admin_with admin) place ≡ false }
    ensures devices { (rest : Image) (vault user admin : Thread) (place : ℕ) → is_device_word (key_store rest vault user admin) place ≡ false }
{}

/// Over any events of the gallery's key store, whatever the programs, no byte outside of the vault's pool changes, and none of the pool before
/// the vault makes a step.
pub fn only_the_vaults_pool_changes()
    ensures elsewhere { OtherBytesStay }
    ensures pool { PoolWaitsForTheVault }
{
    clients_may_not_write_keys();
    runs_have_integrity();
}

/// At any moment of any run of the gallery's key store, whatever the programs, a step of the user or of the admin changes no byte.
pub fn clients_change_no_byte()
    ensures { ClientsChangeNoByte }
{
    events_go_well();
    threads_never_hold_more();
    events_stay_within_authority();
}
