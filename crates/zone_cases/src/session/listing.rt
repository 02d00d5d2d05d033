//! What zoneadm(8) tells: `help`, and the rows of `list`.
ghost use Rattle.std.specs.Prelude.{◌≡◌, ◌∷◌, ◌++◌, [], IfOk, OnOk, codes, replicate};
ghost use Rattle.config_terms.specs.Fields.{path_text};
ghost use Rattle.index_file.specs.Index.{colon};
ghost use Rattle.zn_base.specs.States.{state_text};
ghost use Rattle.zoneadmd_steps.specs.Code.Desks.{as_desk};
ghost use Rattle.zoneadmd_steps.specs.Desks.{empty_desk};
ghost use Rattle.zoneadmd_steps.specs.Objects.{ids_of};
ghost use Rattle.zone_cases.specs.Code.Rows.{as_row, some_uuid_text};
ghost use Rattle.zone_cases.specs.Session.Listed.{columns, fields_text, global_row, global_rows, header, help_line, id_text, ip_text, is_listed, left, listing, right, row_now, row_text, zone_row};

use crate::cell::Cell;
use commit_journal::Row;
use config_terms::IpType;
use index_file::push_escaped;
use itoa::Buffer;
use std::alloc::{AllocError, Global};
use uuid::Uuid;
use uuid_text::push_uuid;
use zn_base::{Bytes, Listing, ZoneName, ZoneState, push_both, push_decimal};

/// How `list` tells of zones.
#[derive(Clone, Copy)]
pub enum Form {
    /// By their names alone.
    Names,
    /// `-p`, for programs: fields with colons between them.
    Fields,
    /// `-v`, for people: columns, and a header.
    Columns,
}

/// Which zones `list` tells of, and how.
#[derive(Clone, Copy)]
pub struct Options {
    /// `-c`: of all.
    pub configured: bool,
    /// `-i`: of those that are installed, come up or go down too.
    pub installed: bool,
    /// `-n`: not of the global zone.
    pub no_global: bool,
    pub form: Form,
}

/// What `list` tells of a zone, or of the global zone, which has no UUID.
#[derive(Clone, Copy)]
pub struct ZoneRow<'r> {
    pub id: Option<u32>,
    pub name: &'r [u8],
    pub state: ZoneState,
    pub path: &'r [u8],
    pub uuid: Option<Uuid>,
    pub brand: &'r [u8],
    pub ip: IpType,
}

fn zonepath(row: &Row) -> &[u8]
    ensures { result.now ≡ path_text row.now.config.zonepath }
{
    match &row.record().config.zonepath {
        Some(path) => path.bytes(),
        None => unreachable!(),
    }
}

// What is told of a stored zone that is in a state and has an id, or none.
fn zone_row<'r>(zone: &'r ZoneName, row: &'r Row, state: ZoneState, id: Option<u32>) -> ZoneRow<'r>
    ensures { as_row result ≡ zone_row zone.now row.now state id }
{
    ZoneRow {
        id,
        name: zone.bytes(),
        state,
        path: zonepath(row),
        uuid: Some(row.uuid),
        brand: row.config.brand.bytes(),
        ip: row.config.ip,
    }
}

/// What is told of a stored zone that has no cell.
pub fn bare_row<'r>(zone: &'r ZoneName, row: &'r Row) -> ZoneRow<'r>
    ensures { as_row result ≡ row_now zone.now row.now empty_desk [] }
{
    zone_row(zone, row, row.state, None)
}

/// What is told of a stored zone, by its cell.
pub fn cell_row<'r>(zone: &'r ZoneName, row: &'r Row, cell: &Cell) -> ZoneRow<'r>
    ensures { as_row result ≡ row_now zone.now row.now (as_desk cell.now.desk) (ids_of cell.now.kernel.id) }
{
    let state = cell.desk.active().unwrap_or(row.state);
    zone_row(zone, row, state, cell.kernel.zid_of())
}

// An id is a number, or `-` where there is none.
fn push_id(out: &mut Vec<u8>, id: Option<u32>) -> Result<(), AllocError>
    ensures { OnOk result (out.new.items ≡ out.old.items ++ id_text id) }
{
    match id {
        Some(id) => push_decimal(out, id as u64),
        None => out.extend_from_slice(b"-"),
    }
}

fn ip_text(ip: IpType) -> &'static [u8]
    ensures { result.now ≡ ip_text ip }
{
    match ip {
        IpType::Shared => b"shared",
        IpType::Exclusive => b"excl",
    }
}

fn push_some_uuid(out: &mut Vec<u8>, uuid: Option<Uuid>) -> Result<(), AllocError>
    ensures { OnOk result (out.new.items ≡ out.old.items ++ some_uuid_text uuid) }
{
    match uuid {
        Some(uuid) => push_uuid(out, uuid),
        None => Ok(()),
    }
}

// `ID:NAME:STATE`.
fn push_first_fields(out: &mut Vec<u8>, row: &ZoneRow<'_>) -> Result<(), AllocError>
    ensures { OnOk result (out.new.items ≡ out.old.items ++ (id_text row.now.id ++ colon ∷ row.now.name.now ++ colon ∷ state_text row.now.state)) }
{
    push_id(out, row.id)?;
    push_both(out, b":", row.name)?;
    push_both(out, b":", row.state.text())
}

// `ID:NAME:STATE:PATH:UUID:BRAND:IP`.
fn push_fields(out: &mut Vec<u8>, row: &ZoneRow<'_>) -> Result<(), AllocError>
    ensures { OnOk result (out.new.items ≡ out.old.items ++ fields_text (as_row row.now)) }
{
    push_first_fields(out, row)?;
    out.push(b':')?;
    push_escaped(out, row.path)?;
    out.push(b':')?;
    push_some_uuid(out, row.uuid)?;
    push_both(out, b":", row.brand)?;
    push_both(out, b":", ip_text(row.ip))
}

fn push_spaces(out: &mut Vec<u8>, count: usize) -> Result<(), AllocError>
    ensures { OnOk result (out.new.items ≡ out.old.items ++ replicate count 32) }
{
    for _at in 0..count {
        out.push(b' ')?;
    }
    Ok(())
}

// A column after a space, with its text at the left.
fn push_left(out: &mut Vec<u8>, width: usize, text: &[u8]) -> Result<(), AllocError>
    ensures { OnOk result (out.new.items ≡ out.old.items ++ 32 ∷ left width text.now) }
{
    push_both(out, b" ", text)?;
    push_spaces(out, width.saturating_sub(text.len()))
}

// A column with its text at the right.
fn push_right(out: &mut Vec<u8>, width: usize, text: &[u8]) -> Result<(), AllocError>
    ensures { OnOk result (out.new.items ≡ out.old.items ++ right width text.now) }
{
    push_spaces(out, width.saturating_sub(text.len()))?;
    out.extend_from_slice(text)
}

fn push_columns(
    out: &mut Vec<u8>,
    id: &[u8],
    name: &[u8],
    state: &[u8],
    path: &[u8],
    brand: &[u8],
    ip: &[u8],
) -> Result<(), AllocError>
    ensures { OnOk result (out.new.items ≡ out.old.items ++ columns id.now name.now state.now path.now brand.now ip.now) }
{
    push_right(out, 4, id)?;
    push_left(out, 16, name)?;
    push_left(out, 10, state)?;
    push_left(out, 30, path)?;
    push_left(out, 8, brand)?;
    push_left(out, 6, ip)
}

fn push_row_columns(out: &mut Vec<u8>, row: &ZoneRow<'_>, id: &[u8]) -> Result<(), AllocError>
    ensures { OnOk result (out.new.items ≡ out.old.items ++ columns id.now row.now.name.now (state_text row.now.state) row.now.path.now row.now.brand.now (ip_text row.now.ip)) }
{
    push_columns(
        out,
        id,
        row.name,
        row.state.text(),
        row.path,
        row.brand,
        ip_text(row.ip),
    )
}

fn push_columns_of(out: &mut Vec<u8>, row: &ZoneRow<'_>) -> Result<(), AllocError>
    ensures { OnOk result (out.new.items ≡ out.old.items ++ row_text Form.Columns (as_row row.now)) }
{
    match row.id {
        Some(id) => {
            let mut digits = Buffer::new();
            push_row_columns(out, row, digits.format(id).as_bytes())
        }
        None => push_row_columns(out, row, b"-"),
    }
}

fn push_row(out: &mut Vec<u8>, form: Form, row: &ZoneRow<'_>) -> Result<(), AllocError>
    ensures { OnOk result (out.new.items ≡ out.old.items ++ row_text form (as_row row.now)) }
{
    match form {
        Form::Names => out.extend_from_slice(row.name),
        Form::Fields => push_fields(out, row),
        Form::Columns => push_columns_of(out, row),
    }
}

/// The line of a row is put last.
pub fn push_line(
    alloc: Global,
    lines: &mut Listing<Bytes>,
    form: Form,
    row: &ZoneRow<'_>,
) -> Result<(), AllocError>
    ensures { OnOk result (lines.new ≡ lines.old ++ row_text form (as_row row.now) ∷ []) }
{
    let mut line = Vec::new(alloc);
    push_row(&mut line, form, row)?;
    lines.push(Bytes::from_vec(line))
}

/// The lines before those of rows.
pub(crate) fn header(alloc: Global, form: Form) -> Result<Listing<Bytes>, AllocError>
    ensures { IfOk result (λ lines. lines ≡ header form) }
{
    let mut lines = Listing::new(alloc);
    match form {
        Form::Columns => {
            let mut line = Vec::new(alloc);
            push_columns(
                &mut line, b"ID", b"NAME", b"STATUS", b"PATH", b"BRAND", b"IP",
            )?;
            lines.push(Bytes::from_vec(line))?;
        }
        Form::Names | Form::Fields => (),
    }
    Ok(lines)
}

/// The lines that tell of one zone.
pub(crate) fn list_one(
    alloc: Global,
    form: Form,
    row: &ZoneRow<'_>,
) -> Result<Listing<Bytes>, AllocError>
    ensures { IfOk result (λ lines. lines ≡ listing form (as_row row.now ∷ [])) }
{
    let mut lines = header(alloc, form)?;
    push_line(alloc, &mut lines, form, row)?;
    Ok(lines)
}

// What is told of the global zone.
fn global_row() -> ZoneRow<'static>
    ensures { as_row result ≡ global_row }
{
    ZoneRow {
        id: Some(0),
        name: b"global",
        state: ZoneState::Running,
        path: b"/",
        uuid: None,
        brand: b"ipkg",
        ip: IpType::Shared,
    }
}

/// The lines before those of the stored zones.
pub fn list_global(alloc: Global, options: Options) -> Result<Listing<Bytes>, AllocError>
    ensures { IfOk result (λ lines. lines ≡ listing options.form (global_rows options.no_global)) }
{
    let mut lines = header(alloc, options.form)?;
    if !options.no_global {
        push_line(alloc, &mut lines, options.form, &global_row())?;
    }
    Ok(lines)
}

/// Whether `list` tells of a zone in a state.
pub fn is_listed(options: Options, state: ZoneState) -> bool
    ensures { result ≡ is_listed options state }
{
    match state {
        ZoneState::Running => true,
        ZoneState::Configured | ZoneState::Incomplete => options.configured,
        ZoneState::Installed | ZoneState::Ready | ZoneState::ShuttingDown | ZoneState::Down =>
            options.configured || options.installed,
    }
}

/// What `help` tells.
pub fn help(alloc: Global) -> Result<Listing<Bytes>, AllocError>
    ensures { IfOk result (λ lines. lines ≡ help_line ∷ []) }
{
    let mut lines = Listing::new(alloc);
    let words =
        b"attach boot clone detach halt help install list mark move ready reboot uninstall verify";
    lines.push(Bytes::from_slice(alloc, words)?)?;
    Ok(lines)
}
