//! The text of a grant, printed.
ghost use Rattle.std.specs.Prelude.{◌≡◌, ◌++◌, IsTrue, OnOk};
ghost use Rattle.grant_text.specs.Text.{grant_text, is_grant};

use crate::pool_word;
use std::alloc::AllocError;
use zn_base::{push_both, push_numbered};
use zone_pools::Grant;

/// Appends the text of a grant: `@-` where nothing was asked, `@N` for a number, `@yes`, or `@no POOL` for the pool
/// that denied. Where memory runs out, the bytes are as they were, or have a front of it after them.
pub fn push_grant(out: &mut Vec<u8>, grant: Grant) -> Result<(), AllocError>
    ensures text { OnOk result (out.new.items ≡ out.old.items ++ grant_text grant) }
    ensures number { IsTrue (is_grant grant) }
{
    match grant {
        Grant::Nothing => out.extend_from_slice(b"@-"),
        Grant::Number(number) => push_numbered(out, b"@", number as u64),
        Grant::Yes => out.extend_from_slice(b"@yes"),
        Grant::Denied(pool) => push_both(out, b"@no ", pool_word(pool)),
    }
}
