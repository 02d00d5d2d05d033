//! Laws of calls and their texts. Each is the contract of a function that does nothing.
ghost use Rattle.std.specs.Prelude.{◌≡◌, ℕ, IsTrue, List, Ok};
ghost use Rattle.process_calls.specs.declared.call.Call.{Call};
ghost use Rattle.process_calls.specs.Calls.{call_of, call_text, is_call};

/// What is written of a right call is read back as that call.
pub fn calls_are_read_back()
    ensures { (call : Call) → IsTrue (is_call call) → call_of (call_text call) ≡ Ok call }
{}

/// Only right calls are read, and only from the text that is written of them.
pub fn read_calls_are_right()
    ensures right { (text : List ℕ) (call : Call) → call_of text ≡ Ok call → IsTrue (is_call call) }
    ensures text { (text : List ℕ) (call : Call) → call_of text ≡ Ok call → call_text call ≡ text }
{}
