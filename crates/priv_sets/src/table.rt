//! The table of privileges.
ghost use Rattle.std.specs.Prelude.{◌≡◌, ◌<◌, IfSome, Some, bytes_eq, map, position, slice_get};
ghost use Rattle.priv_sets.specs.Rows.{row_of};
ghost use Rattle.priv_sets.specs.Table.{is_of, name_of, number_of, privileges};

// How many privileges there are.
pub(crate) const COUNT: u8 = 40;

/// The number of `proc_exec`, without which a process runs no other program.
pub const PROC_EXEC: u8 = 25;

/// The number of `proc_fork`, without which a process makes no other.
pub const PROC_FORK: u8 = 26;

/// The number of `sys_mount`, without which a process mounts and unmounts nothing.
pub const SYS_MOUNT: u8 = 38;

/// What a zone may and must have.
#[derive(Clone, Copy, PartialEq, Eq)]
pub(crate) enum Class {
    Required,
    Default,
    Optional,
    Prohibited,
}

pub(crate) struct Privilege {
    pub(crate) name: &'static str,
    pub(crate) class: Class,
}

// The privileges of privileges(7) that this profile knows; a privilege's number is its place.
pub(crate) static PRIVILEGES: [Privilege; COUNT as usize] = [
    Privilege {
        name: "contract_event",
        class: Class::Default,
    },
    Privilege {
        name: "contract_identity",
        class: Class::Default,
    },
    Privilege {
        name: "contract_observer",
        class: Class::Default,
    },
    Privilege {
        name: "cpc_cpu",
        class: Class::Optional,
    },
    Privilege {
        name: "dtrace_kernel",
        class: Class::Prohibited,
    },
    Privilege {
        name: "dtrace_proc",
        class: Class::Optional,
    },
    Privilege {
        name: "dtrace_user",
        class: Class::Optional,
    },
    Privilege {
        name: "file_chown",
        class: Class::Default,
    },
    Privilege {
        name: "file_chown_self",
        class: Class::Default,
    },
    Privilege {
        name: "file_dac_execute",
        class: Class::Default,
    },
    Privilege {
        name: "file_dac_read",
        class: Class::Default,
    },
    Privilege {
        name: "file_dac_search",
        class: Class::Default,
    },
    Privilege {
        name: "file_dac_write",
        class: Class::Default,
    },
    Privilege {
        name: "file_link_any",
        class: Class::Default,
    },
    Privilege {
        name: "file_owner",
        class: Class::Default,
    },
    Privilege {
        name: "file_setid",
        class: Class::Default,
    },
    Privilege {
        name: "ipc_dac_read",
        class: Class::Default,
    },
    Privilege {
        name: "ipc_dac_write",
        class: Class::Default,
    },
    Privilege {
        name: "ipc_owner",
        class: Class::Default,
    },
    Privilege {
        name: "net_icmpaccess",
        class: Class::Default,
    },
    Privilege {
        name: "net_privaddr",
        class: Class::Default,
    },
    Privilege {
        name: "net_rawaccess",
        class: Class::Optional,
    },
    Privilege {
        name: "proc_audit",
        class: Class::Default,
    },
    Privilege {
        name: "proc_chroot",
        class: Class::Default,
    },
    Privilege {
        name: "proc_clock_highres",
        class: Class::Optional,
    },
    Privilege {
        name: "proc_exec",
        class: Class::Required,
    },
    Privilege {
        name: "proc_fork",
        class: Class::Required,
    },
    Privilege {
        name: "proc_info",
        class: Class::Default,
    },
    Privilege {
        name: "proc_lock_memory",
        class: Class::Optional,
    },
    Privilege {
        name: "proc_owner",
        class: Class::Default,
    },
    Privilege {
        name: "proc_session",
        class: Class::Default,
    },
    Privilege {
        name: "proc_setid",
        class: Class::Default,
    },
    Privilege {
        name: "proc_taskid",
        class: Class::Default,
    },
    Privilege {
        name: "proc_zone",
        class: Class::Prohibited,
    },
    Privilege {
        name: "sys_acct",
        class: Class::Default,
    },
    Privilege {
        name: "sys_admin",
        class: Class::Default,
    },
    Privilege {
        name: "sys_config",
        class: Class::Prohibited,
    },
    Privilege {
        name: "sys_devices",
        class: Class::Prohibited,
    },
    Privilege {
        name: "sys_mount",
        class: Class::Required,
    },
    Privilege {
        name: "sys_time",
        class: Class::Optional,
    },
];

pub(crate) fn privileges() -> &'static [Privilege]
    ensures { map row_of result.now ≡ privileges }
{
    &PRIVILEGES
}

// The row of a number.
#[tactic(auto, using(crate::proofs::Rows::row_at, crate::proofs::Rows::count_of_rows))]
pub(crate) fn row(number: u8) -> &'static Privilege
    requires { number < 40 }
    ensures { slice_get privileges number ≡ Some (row_of result.now) }
{
    &privileges()[number as usize]
}

// Whether the privilege of a number is of a class.
#[tactic(auto, unfolding(crate::specs::Table::is_of))]
pub(crate) fn is_of(number: u8, class: Class) -> bool
    requires { number < 40 }
    ensures { result ≡ is_of class number }
{
    row(number).class == class
}

fn first_named(table: &[Privilege], name: &[u8]) -> Option<usize>
    ensures { result ≡ position (λ p. bytes_eq p.name.now name.now) table.now }
{
    table
        .iter()
        .position(|privilege| privilege.name.as_bytes() == name)
}

/// A privilege's number in the table, by its name in privileges(7).
#[tactic(auto, using(crate::proofs::Rows::first_row), unfolding(crate::specs::Table::number_of))]
pub fn number_of(name: &[u8]) -> Option<u8>
    ensures number { result ≡ number_of name.now }
    ensures in_table { IfSome result (λ number. number < 40) }
{
    Some(first_named(privileges(), name)? as u8)
}

/// A privilege's name in privileges(7), by its number in the table. Of another number it is empty.
#[tactic(auto, using(crate::proofs::Rows::name_at, crate::proofs::Rows::no_name_past))]
pub fn name_of(number: u8) -> &'static str
    ensures { result.now ≡ name_of number }
{
    if number < COUNT { row(number).name } else { "" }
}
