//! The place of a path: what is mounted over it, and the rest of the path below that.
ghost use Rattle.std.specs.Prelude.{◌≡◌, ◌<◌, ◌≤◌, drop, Err, IfErr, IfOk, IsTrue, Ok, length, true};
ghost use Rattle.std.specs.List.{flat_map, list_all};
ghost use Rattle.std.specs.Option.{option_map};
ghost use Rattle.zn_base.specs.Answers.{AnswersUnless};
ghost use Rattle.zn_base.specs.Path.{is_path};
ghost use Rattle.zn_base.specs.Text.{is_text, is_text_byte};
ghost use Rattle.loopback_mounts.specs.declared.faults.MountFault.TheVariants.{Memory};
ghost use Rattle.loopback_mounts.specs.Mounts.{well_kept};
ghost use Rattle.loopback_mounts.specs.Places.{as_found, is_plain, mount_over, place_answer, place_at, place_text, path_place, resolved, special_at, with_rest};
ghost use Rattle.loopback_mounts.specs.Paths.{IsParent, covers, rest_below};

use crate::cell::MountCell;
use crate::faults::MountFault;
use crate::limits::PLACE_MAX;
use crate::mount::MountEntry;
use crate::search::find;
use kernel_objects::Errno;
use std::alloc::{AllocError, Global};
use zn_base::{AbsPath, Text, is_path, push_pieces};

/// Where a path leads: what is mounted over it, and the components of the path that follow, each after a slash.
#[derive(Clone, Copy)]
pub struct Place<'a> {
    /// The type of the file system.
    pub fstype: &'a Text,
    /// What is mounted.
    pub special: &'a Text,
    /// What follows below it, or nothing.
    pub rest: &'a [u8],
}

// The directory that a path other than `/` stands in.
fn parent(path: &[u8]) -> &[u8]
    requires path { IsTrue (is_path path.now) }
    requires below { 1 < length path.now }
    ensures parent { IsParent path.now result.now }
    ensures shorter { length result.now < length path.now }
{
    let mut end = path.len() - 1;
    while path[end] != b'/' {
        end -= 1;
    }
    &path[..end.max(1)]
}

// The mount over a path. No mount is looked at but those that are searched for: each directory over the path, from the
// path upwards.
fn mount_over<'a>(mounts: &'a [MountEntry], path: &[u8]) -> Option<&'a MountEntry>
    requires kept { IsTrue (well_kept mounts.now) }
    requires path { IsTrue (is_path path.now) }
    ensures { option_map (λ m. m.now) result ≡ mount_over mounts.now path.now }
{
    let mut dir = path;
    loop {
        if let Some(entry) = find(mounts, dir) {
            return Some(entry);
        }
        if dir.len() == 1 {
            return None;
        }
        dir = parent(dir);
    }
}

fn behind(path: &[u8], at: usize) -> &[u8]
    requires { at ≤ length path.now }
    ensures { result.now ≡ drop at path.now }
{
    &path[at..]
}

// What follows of a path below a directory over it. `/` ends with the slash after which components follow.
fn rest_below<'a>(path: &'a [u8], dir: &[u8]) -> &'a [u8]
    requires path { IsTrue (is_path path.now) }
    requires dir { IsTrue (is_path dir.now) }
    requires over { covers dir.now path.now ≡ true }
    ensures rest { result.now ≡ rest_below dir.now path.now }
    ensures text { IsTrue (is_text result.now) }
{
    if dir.len() > 1 {
        return behind(path, dir.len());
    }
    if path.len() == 1 {
        return behind(path, 1);
    }
    path
}

// Pieces in a row.
fn joined(alloc: Global, pieces: &[&[u8]]) -> Result<Vec<u8>, AllocError>
    ensures { IfOk result (λ bytes. bytes.items ≡ flat_map (λ p. p.now) pieces.now) }
{
    let mut bytes = Vec::new(alloc);
    push_pieces(&mut bytes, pieces)?;
    Ok(bytes)
}

// Whether a type of file system isn't shown in a place.
fn is_plain(fstype: &[u8]) -> bool
    ensures { result ≡ is_plain fstype.now }
{
    fstype == b"lofs".as_slice() || fstype == b"root".as_slice()
}

// What is mounted, and then the rest, where a special `/` before a rest is left out.
fn with_rest(alloc: Global, special: &[u8], rest: &[u8]) -> Result<Vec<u8>, AllocError>
    ensures { IfOk result (λ bytes. bytes.items ≡ with_rest special.now rest.now) }
{
    if special == b"/".as_slice() && !rest.is_empty() {
        return joined(alloc, &[rest]);
    }
    joined(alloc, &[special, rest])
}

impl Place<'_> {
    // The bytes of the place, however many there are.
    fn to_bytes(&self, alloc: Global) -> Result<Vec<u8>, AllocError>
        requires { IsTrue (is_text self.now.rest.now) }
        ensures bytes { IfOk result (λ bytes. bytes.items ≡ place_text (as_found self.now)) }
        ensures printable { IfOk result (λ bytes. list_all is_text_byte bytes.items ≡ true) }
    {
        let fstype = self.fstype.bytes();
        let special = self.special.bytes();
        if is_plain(fstype) {
            with_rest(alloc, special, self.rest)
        } else {
            joined(alloc, &[b"<", fstype, b":", special, b">", self.rest])
        }
    }

    /// The place as text: what is mounted, and then the rest, where a special `/` before a rest is left out. Where
    /// the type is neither lofs nor root, what is mounted is shown with it, as `<nfs:server:/export>`. ENAMETOOLONG
    /// where that has more than 4,096 bytes.
    pub fn to_text(&self, alloc: Global) -> Result<Text, MountFault>
        requires { IsTrue (is_text self.now.rest.now) }
        ensures { AnswersUnless MountFault.Memory (place_answer (as_found self.now)) result }
    {
        let bytes = self.to_bytes(alloc)?;
        if bytes.len() > PLACE_MAX {
            return Err(MountFault::Refused(Errno::ENAMETOOLONG));
        }
        Ok(Text::of(alloc, &bytes)?)
    }
}

impl MountCell {
    /// The place of a path: of all mounts whose components are the first of the path's the one with most, and the
    /// rest of the path. ENOENT where there is none, EROFS for a write where it is read-only. It takes no memory.
    pub fn resolve<'a>(&'a self, path: &'a AbsPath, write: bool) -> Result<Place<'a>, MountFault>
        ensures found { IfOk result (λ p. resolved self.now.list path.now write ≡ Ok (as_found p)) }
        ensures refused { IfErr result (λ e. resolved self.now.list path.now write ≡ Err e) }
        ensures text { IfOk result (λ p. IsTrue (is_text p.rest.now)) }
    {
        let Some(entry) = mount_over(self.entries(), path.bytes()) else {
            return Err(MountFault::Refused(Errno::ENOENT));
        };
        let mount = &entry.mount;
        if write && mount.read_only {
            return Err(MountFault::Refused(Errno::EROFS));
        }
        Ok(Place {
            fstype: &mount.fstype,
            special: &mount.special,
            rest: rest_below(path.bytes(), mount.dir.bytes()),
        })
    }

    /// The place of a path as text: what `resolve` finds, by `Place::to_text`, or what either refuses.
    pub fn place(&self, alloc: Global, path: &AbsPath, write: bool) -> Result<Text, MountFault>
        ensures { AnswersUnless MountFault.Memory (place_at self.now.list path.now write) result }
    {
        self.resolve(path, write)?.to_text(alloc)
    }

    // The place of a path of a zone, where it is one.
    fn path_place(&self, alloc: Global, path: &Text) -> Result<Text, MountFault>
        ensures { AnswersUnless MountFault.Memory (path_place self.now.list path.now) result }
    {
        if !is_path(path.bytes()) {
            return Err(MountFault::Refused(Errno::ENOENT));
        }
        let path = AbsPath::of(alloc, path.bytes())?;
        self.place(alloc, &path, false)
    }

    /// What is mounted, by mount(2): of lofs(4FS) the place of a path, else what is given. What is no absolute path has no
    /// place, ENOENT.
    pub fn special(&self, alloc: Global, fstype: &Text, special: &Text) -> Result<Text, MountFault>
        ensures { AnswersUnless MountFault.Memory (special_at self.now.list fstype.now special.now) result }
    {
        if fstype.bytes() == b"lofs".as_slice() {
            self.path_place(alloc, special)
        } else {
            Ok(special.copy(alloc)?)
        }
    }
}
