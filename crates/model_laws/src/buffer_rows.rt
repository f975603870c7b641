//! Worked rows on message buffers.

ghost use Rattle.std.specs.Prelude.{◌≡◌, Err, None, Some};
ghost use Rattle.model.specs.declared.capabilities.Cap.TheVariants.{Empty, Frame};
ghost use Rattle.model.specs.declared.errors.KError.TheVariants.{DeleteFirst, FailedLookup, InvalidCapability, RevokeFirst};
ghost use Rattle.model.specs.Capabilities.Rights.{frame_rights};
ghost use Rattle.model.specs.Capabilities.Slots.{capability_at, empty_entry, parent_at};
ghost use Rattle.model.specs.Kernel.Messages.{a0, a1, register};
ghost use Rattle.model.specs.Kernel.Removal.{delete};
ghost use Rattle.model.specs.Kernel.State.{Runnable, buffer_slot, thread_at};
ghost use Rattle.model.specs.Machine.ProgramMemory.{read};
ghost use Rattle.model_laws.specs.Buffers.{answered_and_received, before_answer, before_buffer, before_fault, both_have_buffers, bytes_in, calls};
ghost use Rattle.model_laws.specs.Buffers.{client_frame, client_has_buffer, handled, mapped_frame, one_buffer, server_frame, server_has_buffer};
ghost use Rattle.model_laws.specs.Buffers.{set_buffer_to, third, with_buffer, without_buffers};
ghost use Rattle.model_laws.specs.Kernels.{state_or};
ghost use Rattle.model_laws.specs.Talks.{client, server};

/// A call with info 0x0000000C between two threads with buffers: eight words go by registers, and words
/// 8 to 11 are bytes 32 to 47 of the frames.
#[tactic(auto, unfolding(crate::proofs::Opened::opened))]
pub fn buffers_carry_further_words()
    ensures info { read (thread_at (calls (both_have_buffers 0x000C)) server).registers a1 ≡ 12 }
    ensures last_register { read (thread_at (calls (both_have_buffers 0x000C)) server).registers (register 21) ≡ 88 }
    ensures copied { bytes_in (calls (both_have_buffers 0x000C)) server_frame 32 16 ≡ bytes_in (both_have_buffers 0x000C) client_frame 32 16 }
    ensures before { bytes_in (calls (both_have_buffers 0x000C)) server_frame 0 32 ≡ bytes_in (both_have_buffers 0x000C) server_frame 0 32 }
    ensures behind { bytes_in (calls (both_have_buffers 0x000C)) server_frame 48 4 ≡ bytes_in (both_have_buffers 0x000C) server_frame 48 4 }
    ensures sent { bytes_in (calls (both_have_buffers 0x000C)) client_frame 0 64 ≡ bytes_in (both_have_buffers 0x000C) client_frame 0 64 }
{}

/// Where one of both has no buffer the message has eight words, and no byte changes.
#[tactic(auto, unfolding(crate::proofs::Opened::opened))]
pub fn a_message_without_a_buffer_has_eight_words()
    ensures to_one { read (thread_at (calls (client_has_buffer 0x000C)) server).registers a1 ≡ 8 }
    ensures to_one_bytes { (calls (client_has_buffer 0x000C)).bytes ≡ (client_has_buffer 0x000C).bytes }
    ensures from_one { read (thread_at (calls (server_has_buffer 0x000C)) server).registers a1 ≡ 8 }
    ensures from_one_bytes { (calls (server_has_buffer 0x000C)).bytes ≡ (server_has_buffer 0x000C).bytes }
    ensures neither { read (thread_at (calls (without_buffers 0x000C)) server).registers a1 ≡ 8 }
    ensures neither_bytes { (calls (without_buffers 0x000C)).bytes ≡ (without_buffers 0x000C).bytes }
{}

/// With buffers a length above 120 counts as 120, and one of at most eight copies nothing.
#[tactic(auto, unfolding(crate::proofs::Opened::opened))]
pub fn a_length_counts_up_to_120_with_buffers()
    ensures most { read (thread_at (calls (both_have_buffers 0x007F)) server).registers a1 ≡ 120 }
    ensures copied { bytes_in (calls (both_have_buffers 0x007F)) server_frame 32 448 ≡ bytes_in (both_have_buffers 0x007F) client_frame 32 448 }
    ensures before { bytes_in (calls (both_have_buffers 0x007F)) server_frame 0 32 ≡ bytes_in (both_have_buffers 0x007F) server_frame 0 32 }
    ensures behind { bytes_in (calls (both_have_buffers 0x007F)) server_frame 480 4 ≡ bytes_in (both_have_buffers 0x007F) server_frame 480 4 }
    ensures eight { read (thread_at (calls (both_have_buffers 0x0008)) server).registers a1 ≡ 8 }
    ensures eight_bytes { bytes_in (calls (both_have_buffers 0x0008)) server_frame 0 64 ≡ bytes_in (both_have_buffers 0x0008) server_frame 0 64 }
{}

/// Two threads with one frame as their buffer: all words are there already.
#[tactic(auto, unfolding(crate::proofs::Opened::opened))]
pub fn one_buffer_of_two_threads_stays()
    ensures info { read (thread_at (calls (one_buffer 0x000C)) server).registers a1 ≡ 12 }
    ensures bytes { bytes_in (calls (one_buffer 0x000C)) server_frame 0 512 ≡ bytes_in (one_buffer 0x000C) server_frame 0 512 }
{}

/// A fault's message is in registers alone, and so is what is replied to it.
#[tactic(auto, unfolding(crate::proofs::Opened::opened))]
pub fn faults_copy_nothing()
    ensures info { read (thread_at (calls before_fault) server).registers a1 ≡ 0x1005 }
    ensures bytes { (calls before_fault).bytes ≡ before_fault.bytes }
    ensures resumed { (thread_at handled client).registers.pc ≡ 0x2000 }
    ensures reply_bytes { handled.bytes ≡ before_fault.bytes }
{}

/// ReplyRecv delivers twice, and the second delivery reads what the first one left: the server's words 8
/// to 11 come back to it by the one buffer of its caller and of the next sender, whose further words
/// follow.
#[tactic(auto, unfolding(crate::proofs::Opened::opened))]
pub fn a_reply_is_written_before_a_message_is_read()
    ensures reply { read (thread_at answered_and_received client).registers a1 ≡ 12 }
    ensures replied { bytes_in answered_and_received client_frame 32 16 ≡ bytes_in before_answer server_frame 32 16 }
    ensures reply_ends { bytes_in answered_and_received client_frame 48 16 ≡ bytes_in before_answer client_frame 48 16 }
    ensures badge { read (thread_at answered_and_received server).registers a0 ≡ 7 }
    ensures info { read (thread_at answered_and_received server).registers a1 ≡ 16 }
    ensures back { bytes_in answered_and_received server_frame 32 16 ≡ bytes_in before_answer server_frame 32 16 }
    ensures received { bytes_in answered_and_received server_frame 48 16 ≡ bytes_in before_answer client_frame 48 16 }
    ensures behind { bytes_in answered_and_received server_frame 64 4 ≡ bytes_in before_answer server_frame 64 4 }
    ensures runs { (thread_at answered_and_received third).status ≡ Runnable }
{}

/// SetBuffer wants a frame that is read and written, and the thread's slot 2 empty. What it puts there
/// is not mapped, and a child of the slot that the call names.
#[tactic(auto, unfolding(crate::proofs::Opened::opened))]
pub fn a_buffer_is_a_copy_that_is_not_mapped()
    ensures to_read { set_buffer_to (before_buffer (mapped_frame 2)) 3 ≡ Err InvalidCapability }
    ensures no_frame { set_buffer_to (before_buffer (mapped_frame 3)) 4 ≡ Err InvalidCapability }
    ensures empty { set_buffer_to (before_buffer (mapped_frame 3)) 5 ≡ Err FailedLookup }
    ensures taken { set_buffer_to (with_buffer (before_buffer (mapped_frame 3)) client server_frame) 3 ≡ Err DeleteFirst }
    ensures copy { capability_at (state_or (before_buffer (mapped_frame 3)) (set_buffer_to (before_buffer (mapped_frame 3)) 3)).slots (buffer_slot client)
        ≡ Frame client_frame frame_rights None }
    ensures child { parent_at (state_or (before_buffer (mapped_frame 3)) (set_buffer_to (before_buffer (mapped_frame 3)) 3)).slots (buffer_slot client)
        ≡ Some 3 }
    ensures source { (state_or (before_buffer (mapped_frame 3)) (set_buffer_to (before_buffer (mapped_frame 3)) 3)).slots 3
        ≡ (before_buffer (mapped_frame 3)).slots 3 }
{}

/// The only capability of a thread that has a buffer is not deleted. Without one the thread ends, and
/// the slot for its buffer is there no more.
#[tactic(auto, unfolding(crate::proofs::Opened::opened))]
pub fn a_thread_with_a_buffer_is_revoked_first()
    ensures filled { delete (with_buffer (before_buffer Empty) client client_frame) 4 ≡ Err RevokeFirst }
    ensures open_before { (before_buffer Empty).slots (buffer_slot client) ≡ Some empty_entry }
    ensures gone { (state_or (before_buffer Empty) (delete (before_buffer Empty) 4)).objects client ≡ None }
    ensures closed { (state_or (before_buffer Empty) (delete (before_buffer Empty) 4)).slots (buffer_slot client) ≡ None }
{}
