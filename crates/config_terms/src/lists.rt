//! Edits of the list of a resource.
ghost use Rattle.std.specs.Prelude.{◌≡◌, ◌++◌, OnOk, OnErr, position};
ghost use Rattle.config_terms.specs.Edits.{Changes, edited, passes_options, options_edited};

use crate::ConfigFault;
use crate::allowed::OPTIONS_MAX;
use std::alloc::{AllocError, Global};
use zn_base::{Listing, Text, TryClone, try_clone_all};

/// An edit of a list by the items given: they take its place, follow it, or are taken out of it.
#[derive(Clone, Copy)]
pub enum ListEdit {
    Put,
    Add,
    Remove,
}

fn add_all<T: TryClone>(alloc: Global, list: &mut Listing<T>, items: &[T]) -> Result<(), AllocError>
    ensures ok { OnOk result (list.new ≡ list.old ++ items.now) }
    ensures err { OnErr result (list.new ≡ list.old) }
{
    list.append(try_clone_all(alloc, items)?)
}

fn place_of<T: PartialEq>(item: &T, items: &[T]) -> Option<usize>
    ensures { result ≡ position (T.eq item.now) items.now }
{
    items.iter().position(|other| item == other)
}

fn remove_each<T: TryClone + PartialEq>(
    alloc: Global,
    list: &mut Listing<T>,
    items: &[T],
) -> Result<(), ConfigFault>
    ensures { Changes list.old list.new result (edited T.eq ListEdit.Remove items.now list.old) }
{
    let mut kept = list.try_clone(alloc)?;
    for item in items {
        let Some(place) = place_of(item, kept.as_slice()) else {
            return Err(ConfigFault::NoMatch);
        };
        let _removed = kept.remove(place);
    }
    *list = kept;
    Ok(())
}

/// Edits a list. After a fault it is as before.
pub(crate) fn edit_list<T: TryClone + PartialEq>(
    alloc: Global,
    edit: ListEdit,
    list: &mut Listing<T>,
    items: &[T],
) -> Result<(), ConfigFault>
    ensures { Changes list.old list.new result (edited T.eq edit items.now list.old) }
{
    match edit {
        ListEdit::Put => *list = try_clone_all(alloc, items)?,
        ListEdit::Add => add_all(alloc, list, items)?,
        ListEdit::Remove => return remove_each(alloc, list, items),
    }
    Ok(())
}

fn passes_options(edit: ListEdit, given: &[Text], options: &Listing<Text>) -> bool
    ensures { result ≡ passes_options edit given.now options.now }
{
    match edit {
        ListEdit::Put => given.len() > OPTIONS_MAX,
        ListEdit::Add => given.len() > OPTIONS_MAX || options.len() + given.len() > OPTIONS_MAX,
        ListEdit::Remove => false,
    }
}

/// Edits options. After a fault they are as before.
#[tactic(auto, unfolding(crate::specs::Edits::options_edited))]
pub(crate) fn edit_options(
    alloc: Global,
    edit: ListEdit,
    options: &mut Listing<Text>,
    given: &[Text],
) -> Result<(), ConfigFault>
    ensures { Changes options.old options.new result (options_edited edit given.now options.old) }
{
    if passes_options(edit, given, options) {
        return Err(ConfigFault::TooMany(OPTIONS_MAX));
    }
    edit_list(alloc, edit, options, given)
}
