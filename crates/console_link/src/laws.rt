//! What the definitions say of a console over time. Each law is the contract of a function that does nothing.
ghost use Rattle.std.specs.Prelude.{◌≡◌, ◌≤◌, ◌++◌, List, Err, Some, false, length, true, ℕ};
ghost use Rattle.std.specs.List.{list_all};
ghost use Rattle.circular_buffer.specs.Buffer.{keep_last};
ghost use Rattle.console_link.specs.Consoles.{Console, attach_answer, emptied, is_in_use, new_console};
ghost use Rattle.console_link.specs.Histories.{Event, after, all_fit, bytes_taken, bytes_written, leaves_holder, leaves_output};
ghost use Rattle.console_link.specs.declared.faults.ConsoleFault.TheVariants.{Taken};

/// After any writes, whoever comes and goes meanwhile, what is read next is exactly the last 4,096 bytes of all that was
/// written since the output was last taken or thrown away, in their order: all of it where it is no more, and else
/// without its first bytes. Of no console more is ever kept.
pub fn only_the_last_bytes_are_kept()
    ensures exact { (es : List Event) (c : Console) → list_all leaves_output es ≡ true → (after es (emptied c)).output ≡ keep_last 4096 (bytes_written es) }
    ensures whole { (es : List Event) (c : Console) → list_all leaves_output es ≡ true → length (bytes_written es) ≤ 4096 → (after es (emptied c)).output ≡ bytes_written es }
    ensures bounded { (es : List Event) → length (after es new_console).output ≤ 4096 }
{}

/// A byte is taken once, and none is missed: where no more came than could be kept, what was taken or thrown away, one
/// after the other, and then what is kept, is what was kept at first and then all that was written.
pub fn each_byte_is_taken_once()
    ensures { (es : List Event) (c : Console) → all_fit es c ≡ true → bytes_taken es c ++ (after es c).output ≡ c.output ++ bytes_written es }
{}

/// Whoever is attached keeps the console until it is detached, whatever else is done, and meanwhile no other session
/// is attached.
pub fn a_console_has_one_holder()
    ensures stays { (es : List Event) (c : Console) (session : ℕ) → c.holder ≡ Some session → list_all leaves_holder es ≡ true → (after es c).holder ≡ Some session }
    ensures refused { (c : Console) (session : ℕ) → c.holder ≡ Some session → attach_answer c ≡ Err Taken }
{}

/// A console that keeps nothing and that no session has is as a new one.
pub fn what_is_out_of_use_is_as_new()
    ensures { (c : Console) → is_in_use c ≡ false → c ≡ new_console }
{}
