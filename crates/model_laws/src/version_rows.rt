//! Rows on the versions of image files: what each has, and which one a text has.

ghost use Rattle.std.specs.Prelude.{◌≡◌, [], ◌∷◌, true, false};
ghost use Rattle.model.specs.Images.Image.{has_buffers, has_devices, has_promises, header_format, no_buffer, thread_header_format};
ghost use Rattle.model.specs.Images.Listing.{version_listed};
ghost use Rattle.model_laws.specs.Promised.{port};
ghost use Rattle.model_laws.specs.Versions.{a_header, a_thread, an_object, header_length, object_fits, thread_header_length};

/// Promises come with version 2, buffers with version 3, and device pages with version 4.
#[tactic(auto, unfolding(crate::proofs::Opened::opened))]
pub fn versions_have_what_came_with_them()
    ensures promises_1 { has_promises 1 ≡ false }
    ensures promises_2 { has_promises 2 ≡ true }
    ensures promises_4 { has_promises 4 ≡ true }
    ensures buffers_2 { has_buffers 2 ≡ false }
    ensures buffers_3 { has_buffers 3 ≡ true }
    ensures buffers_4 { has_buffers 4 ≡ true }
    ensures devices_3 { has_devices 3 ≡ false }
    ensures devices_4 { has_devices 4 ≡ true }
{}

/// A field that a version does not have takes no byte: twelve words of the header and four bytes more from version 2 on, 52 bytes of
/// a thread's and four more from version 3 on. Where the field is not there, there is no promise, and no buffer.
#[tactic(auto, unfolding(crate::proofs::Opened::opened))]
pub fn fields_are_there_in_their_versions()
    ensures header_1 { header_length 1 ≡ 48 }
    ensures header_2 { header_length 2 ≡ 52 }
    ensures header_4 { header_length 4 ≡ 52 }
    ensures thread_2 { thread_header_length 2 ≡ 52 }
    ensures thread_3 { thread_header_length 3 ≡ 56 }
    ensures thread_4 { thread_header_length 4 ≡ 56 }
    ensures none_1 { header_format.fits (a_header 1 0) ≡ true }
    ensures promise_1 { header_format.fits (a_header 1 1) ≡ false }
    ensures promise_2 { header_format.fits (a_header 2 1) ≡ true }
    ensures none_2 { (thread_header_format 2 7).fits (a_thread no_buffer).header ≡ true }
    ensures buffer_2 { (thread_header_format 2 7).fits (a_thread 3).header ≡ false }
    ensures buffer_3 { (thread_header_format 3 7).fits (a_thread 3).header ≡ true }
    ensures outside_3 { (thread_header_format 3 7).fits (a_thread 7).header ≡ false }
    ensures none_3 { (thread_header_format 3 7).fits (a_thread no_buffer).header ≡ true }
    ensures next { header_format.fits (a_header 5 0) ≡ false }
{}

/// A frame of size 1, which is a device page, is in version 4 alone, and one of size 2 in none.
#[tactic(auto, unfolding(crate::proofs::Opened::opened))]
pub fn device_pages_fit_in_version_4()
    ensures device_4 { object_fits 4 6 1 ≡ true }
    ensures device_3 { object_fits 3 6 1 ≡ false }
    ensures device_2 { object_fits 2 6 1 ≡ false }
    ensures device_1 { object_fits 1 6 1 ≡ false }
    ensures frame_1 { object_fits 1 6 0 ≡ true }
    ensures frame_4 { object_fits 4 6 0 ≡ true }
    ensures greater_3 { object_fits 3 6 2 ≡ false }
    ensures greater_4 { object_fits 4 6 2 ≡ false }
    ensures table_4 { object_fits 4 7 1 ≡ false }
    ensures thread_4 { object_fits 4 2 1 ≡ false }
    ensures cnode_3 { object_fits 3 5 1 ≡ true }
    ensures cnode_4 { object_fits 4 5 0 ≡ false }
{}

/// The image of a text has the first version that has all its fields: 4 with a device page, else 3 with a buffer, else 2 with a
/// promise, else 1. A CNode of radix 1 is no device page.
#[tactic(auto, unfolding(crate::proofs::Opened::opened))]
pub fn a_text_has_the_first_version_with_its_fields()
    ensures plain { version_listed (an_object 6 0 ∷ an_object 5 1 ∷ []) [] (a_thread no_buffer ∷ []) ≡ 1 }
    ensures promise { version_listed (an_object 6 0 ∷ []) (port ∷ []) (a_thread no_buffer ∷ []) ≡ 2 }
    ensures buffer { version_listed (an_object 6 0 ∷ []) [] (a_thread 0 ∷ []) ≡ 3 }
    ensures second_thread { version_listed (an_object 6 0 ∷ []) (port ∷ []) (a_thread no_buffer ∷ a_thread 0 ∷ []) ≡ 3 }
    ensures device { version_listed (an_object 6 1 ∷ []) [] (a_thread no_buffer ∷ []) ≡ 4 }
    ensures second_object { version_listed (an_object 6 0 ∷ an_object 6 1 ∷ []) (port ∷ []) (a_thread 0 ∷ []) ≡ 4 }
{}
