//! What is done alike for each kind of resource, in one place a kind: its row below.

/// The kinds, each with its list in `Contents`, to a macro that makes a match of them.
#[macro_export]
macro_rules! each_kind {
    ($arms:ident, $given:tt) => {
        $crate::$arms!(
            $given, Fs fs, Net net, Device device, Rctl rctl, Attr attr, Dataset dataset
        )
    };
}

/// By the kind: what is made of it and of its list.
#[macro_export]
macro_rules! by_kind {
    ($kind:expr, $contents:expr, |$list:ident| $body:expr) => {
        $crate::by_kind!($kind, $contents, |kind, $list| $body)
    };
    ($kind:expr, $contents:expr, |$own:ident, $list:ident| $body:expr) => {
        $crate::each_kind!(kind_arms, ($kind, $contents, $own, $list, $body))
    };
}

/// The arms of `by_kind!`.
#[macro_export]
macro_rules! kind_arms {
    (
        ($kind:expr, $contents:expr, $own:ident, $list:ident, $body:expr),
        $($name:ident $field:ident),*
    ) => {
        match $kind {
            $(Kind::$name => {
                let $own = Kind::$name;
                let $list = &$contents.$field;
                $body
            })*
        }
    };
}

// The sum over the kinds of what is made of the list of each.
macro_rules! sum_of_kinds {
    ($contents:expr, |$list:ident| $body:expr) => {
        $crate::each_kind!(kind_sum, ($contents, $list, $body))
    };
}

macro_rules! kind_sum {
    (($contents:expr, $list:ident, $body:expr), $($name:ident $field:ident),*) => {
        0 $(+ {
            let $list = &$contents.$field;
            $body
        })*
    };
}

// By the kind: a resource of what is made of its list, where memory lasts.
macro_rules! resource_by_kind {
    ($kind:expr, $contents:expr, |$list:ident| $body:expr) => {
        $crate::each_kind!(resource_arms, ($kind, $contents, $list, $body))
    };
}

macro_rules! resource_arms {
    (($kind:expr, $contents:expr, $list:ident, $body:expr), $($name:ident $field:ident),*) => {
        match $kind {
            $(Kind::$name => {
                let $list = &$contents.$field;
                $body.map(Resource::$name)
            })*
        }
    };
}

// By the kind: a resource of what is made of its list, which may change.
macro_rules! resource_by_kind_mut {
    ($kind:expr, $contents:expr, |$list:ident| $body:expr) => {
        $crate::each_kind!(resource_arms_mut, ($kind, $contents, $list, $body))
    };
}

macro_rules! resource_arms_mut {
    (($kind:expr, $contents:expr, $list:ident, $body:expr), $($name:ident $field:ident),*) => {
        match $kind {
            $(Kind::$name => {
                let $list = &mut $contents.$field;
                Resource::$name($body)
            })*
        }
    };
}

// By a resource: what is made of its kind, of it, and of the list of its kind.
macro_rules! by_resource {
    ($resource:expr, $contents:expr, |$own:ident, $entry:ident, $list:ident| $body:expr) => {
        $crate::each_kind!(entry_arms, ($resource, $contents, $own, $entry, $list, $body))
    };
}

macro_rules! entry_arms {
    (
        ($resource:expr, $contents:expr, $own:ident, $entry:ident, $list:ident, $body:expr),
        $($name:ident $field:ident),*
    ) => {
        match $resource {
            $(Resource::$name($entry) => {
                let $own = Kind::$name;
                let $list = &$contents.$field;
                $body
            })*
        }
    };
}

// By a resource: what is done with it and the list of its kind.
macro_rules! by_resource_mut {
    ($resource:expr, $contents:expr, |$entry:ident, $list:ident| $body:expr) => {
        $crate::each_kind!(entry_arms_mut, ($resource, $contents, $entry, $list, $body))
    };
}

macro_rules! entry_arms_mut {
    (
        ($resource:expr, $contents:expr, $entry:ident, $list:ident, $body:expr),
        $($name:ident $field:ident),*
    ) => {
        match $resource {
            $(Resource::$name($entry) => {
                let $list = &mut $contents.$field;
                $body
            })*
        }
    };
}

// The same, where what finds no memory comes back as a resource.
macro_rules! resource_or_back {
    ($resource:expr, $contents:expr, |$entry:ident, $list:ident| $body:expr) => {
        $crate::each_kind!(arms_or_back, ($resource, $contents, $entry, $list, $body))
    };
}

macro_rules! arms_or_back {
    (
        ($resource:expr, $contents:expr, $entry:ident, $list:ident, $body:expr),
        $($name:ident $field:ident),*
    ) => {
        match $resource {
            $(Resource::$name($entry) => {
                let $list = &mut $contents.$field;
                match $body {
                    Ok(()) => Ok(()),
                    Err(failed) => Err(AllocFailed {
                        value: Resource::$name(failed.value),
                    }),
                }
            })*
        }
    };
}

pub(crate) use arms_or_back;
pub(crate) use by_resource;
pub(crate) use by_resource_mut;
pub(crate) use entry_arms;
pub(crate) use entry_arms_mut;
pub(crate) use kind_sum;
pub(crate) use resource_arms;
pub(crate) use resource_arms_mut;
pub(crate) use resource_by_kind;
pub(crate) use resource_by_kind_mut;
pub(crate) use resource_or_back;
pub(crate) use sum_of_kinds;
