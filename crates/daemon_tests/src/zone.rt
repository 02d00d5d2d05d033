//! One zone with its desk and its objects, the shared parts, and the brands. What is done goes through helpers without
//! contracts, so that no test's proof follows what a zone holds.
ghost use Rattle.std.specs.Prelude.{◌≡◌, IfOk, OnOk, true};
ghost use Rattle.brand_hooks.specs.Tables.{answer_at};
ghost use Rattle.zoneadmd_steps.specs.Code.Cases.{IsNumberedTurn, IsTurnOf};
ghost use Rattle.zoneadmd_steps.specs.Code.Rooms.{HasTurnRoom};

use crate::holdings::what_it_has;
use crate::printer::push_turn;
use brand_hooks::{
    Brand, BrandFault, BrandTables, Brands, Change, ChangeKind, HookAnswer, HookTable,
};
use commit_journal::{Record, Row, StoredConfig, uuid_of};
use datalink_table::{Claim, ClaimCell, ClaimKind, ClaimShared};
use export_read::read_export;
use kernel_objects::{KernelCell, KernelShared, Running};
use loopback_mounts::{Mount, MountCell};
use std::alloc::{AllocError, Global};
use std::process::Abort;
use std::str;
use std::test::Fail;
use zn_base::{AbsPath, Listing, Text, ZoneName, ZoneState};
use zone_pools::{Grant, number_in};
use zoneadmd_steps::{
    Came, Desk, Gone, JobCase, Limits, ObjectEdit, Objects, QueuedRequest, Request, Stored, System,
    TurnCase, TurnReply, decide_turn, settle_turn,
};

/// One zone with all that its daemon looks at and changes.
pub struct Zone {
    pub name: ZoneName,
    pub kernel: KernelCell,
    pub mounts: MountCell,
    pub claims: ClaimCell,
    pub desk: Desk,
    pub row: Option<Row>,
    pub kernels: KernelShared,
    pub items: ClaimShared,
    pub brands: BrandTables,
    /// The number of the latest record.
    pub serial: u32,
    /// What the next step that asks is given, in place of what the pools give.
    pub stated: Option<Grant>,
}

impl Drop for Zone {
    fn drop(self) {
        let Zone {
            name: _name,
            kernel: _kernel,
            mounts: _mounts,
            claims: _claims,
            desk: _desk,
            row: _row,
            kernels: _kernels,
            items: _items,
            brands: _brands,
            serial: _serial,
            stated: _stated,
        } = self;
    }
}

/// A brand's name, a change, and what the brand answers to it; it lets all others proceed.
pub type Answering = (&'static [u8], Change, HookAnswer);

const IPKG: Answering = (b"ipkg", BEFORE_INSTALL, HookAnswer::Proceed);

const BEFORE_INSTALL: Change = Change {
    before: true,
    kind: ChangeKind::Install,
};

// A refusal has a code of 1 to 99.
fn table_of(asked: &Change, answer: HookAnswer) -> HookTable {
    match answer {
        HookAnswer::Refuse(code) if matches!(code, 1..=99) => {
            HookTable::proceed().with(asked, HookAnswer::Refuse(code))
        }
        _ => HookTable::proceed(),
    }
}

fn tables_of(alloc: Global, answering: &[Answering]) -> Result<BrandTables, BrandFault> {
    let mut list = Vec::new(alloc);
    for (name, asked, answer) in answering {
        let table = table_of(asked, *answer);
        let own = table.copy();
        let hook = move |change: &Change| own.at(change);
        let brand = Brand::new(alloc, name, table, hook)?;
        if list.push(brand).is_err() {
            return Err(BrandFault::Memory);
        }
    }
    Ok(Brands::new(alloc, list)?.tables(alloc)?)
}

// The row of a record, if that is in form.
fn in_form(record: Record) -> Option<Row> {
    if record.state.is_stored() && record.revision >= 1 && record.config.zonepath.is_some() {
        Some(Row::new(record))
    } else {
        None
    }
}

fn row_of(
    alloc: Global,
    name: &ZoneName,
    state: ZoneState,
    text: &[u8],
) -> Result<Option<Row>, Fail> {
    Ok(in_form(Record {
        state,
        uuid: uuid_of(name, 1),
        revision: 1,
        config: StoredConfig::new(alloc, read_export(alloc, text)?)?,
    }))
}

// Whether a record with another zonepath gets a number from 1 on.
fn is_numbered(case: &TurnCase, grant: Grant) -> bool
    ensures { result ≡ true → IsNumberedTurn case.now grant }
{
    match case {
        TurnCase::GoOn(JobCase::Ask(Came::Moved(_, _, _), _)) => match number_in(grant) {
            Ok(number) => number >= 1,
            Err(_) => true,
        },
        TurnCase::GoOn(
            JobCase::Ask(
                Came::Process(_, _)
                | Came::Id
                | Came::Claim(_)
                | Came::Record(_, _)
                | Came::Source(_),
                _,
            ),
        ) => true,
        _ => true,
    }
}

fn bare(alloc: Global, answering: &[Answering]) -> Result<Zone, Fail> {
    Ok(Zone {
        name: ZoneName::read(alloc, b"web")?,
        kernel: KernelCell::new(alloc),
        mounts: MountCell::new(alloc),
        claims: ClaimCell::new(alloc),
        desk: Desk::new(alloc),
        row: None,
        kernels: KernelShared::new(alloc),
        items: ClaimShared::new(alloc),
        brands: tables_of(alloc, answering)?,
        serial: 1,
        stated: None,
    })
}

/// The zone `web` in a state, with the configuration of an export text, where there are these brands.
pub fn branded(
    alloc: Global,
    state: ZoneState,
    text: &[u8],
    answering: &[Answering],
) -> Result<Box<Zone>, Fail> {
    let mut zone = Box::new(alloc, bare(alloc, answering)?)?;
    let row = row_of(alloc, &zone.name, state, text)?;
    zone.row = row;
    Ok(zone)
}

/// The zone `web` in a state, with the configuration of an export text, where the brand `ipkg` lets all changes proceed.
pub fn web(alloc: Global, state: ZoneState, text: &[u8]) -> Result<Box<Zone>, Fail> {
    branded(alloc, state, text, &[IPKG])
}

impl Zone {
    pub fn declare(&mut self, alloc: Global, kind: ClaimKind, item: &[u8]) -> Result<(), Fail> {
        self.items.declare(kind, Text::read(alloc, item)?)?;
        Ok(())
    }

    pub fn declare_device(&mut self, alloc: Global, path: &[u8]) -> Result<(), Fail> {
        self.kernels.declare_device(AbsPath::read(alloc, path)?)?;
        Ok(())
    }

    /// The configuration of an export text is stored, as another session would commit it.
    pub fn commit(&mut self, alloc: Global, text: &[u8]) -> Result<(), Fail> {
        let config = StoredConfig::new(alloc, read_export(alloc, text)?)?;
        self.serial = self.serial.saturating_add(1);
        if let Some(row) = &self.row {
            self.row = in_form(Record {
                state: row.state,
                uuid: row.uuid,
                revision: self.serial,
                config,
            });
        }
        Ok(())
    }

    /// A request is put on the desk, if there is a place.
    pub fn put(&mut self, alloc: Global, request: Request) -> Result<Option<u32>, AllocError> {
        if self.desk.is_full() {
            return Ok(None);
        }
        let queued = QueuedRequest::new(alloc, request)?;
        self.desk.reserve()?;
        Ok(Some(self.desk.put(queued)))
    }

    // What the brand of the request under way answers, where it is asked.
    fn decide(&self, alloc: Global) -> Result<TurnCase, AllocError>
        ensures { IfOk result (IsTurnOf self.now.desk) }
    {
        let answer = match self.desk.next_hook(&self.mounts, &self.claims) {
            Some((brand, change)) => self.brands.answer(brand, &change),
            None => HookAnswer::Proceed,
        };
        let objects = Objects {
            kernel: &self.kernel,
            mounts: &self.mounts,
            claims: &self.claims,
        };
        let system = System {
            kernel: &self.kernels,
            brands: &self.brands,
        };
        let row = self.row.as_ref();
        decide_turn(alloc, &self.name, &self.desk, row, objects, system, answer)
    }

    fn next_serial(&self) -> Grant {
        Grant::Number(self.serial.saturating_add(1))
    }

    fn pool_gives(&self, it: &Came) -> Grant {
        match it {
            Came::Process(_, _) => self.kernels.next_pid(),
            Came::Id => self.kernels.next_zid(),
            Came::Claim(claim) => self.items.ask(claim.kind, &claim.item, &self.name),
            Came::Record(_, _) | Came::Moved(_, _, _) => self.next_serial(),
            Came::Source(_) => Grant::Yes,
        }
    }

    // The grant of a turn. One that is stated is used up.
    fn grant_for(&mut self, case: &TurnCase) -> Grant
        ensures { self.new.desk ≡ self.old.desk }
    {
        match case {
            TurnCase::GoOn(JobCase::Ask(it, _)) => match self.stated.take() {
                Some(grant) => grant,
                None => self.pool_gives(it),
            },
            _ => Grant::Nothing,
        }
    }

    fn begin(&mut self, alloc: Global, running: &Running, grant: Grant) -> Result<(), AllocError>
        ensures { self.new.desk ≡ self.old.desk }
    {
        match grant {
            Grant::Number(pid) if self.kernels.pid_free(pid) => {
                self.kernel
                    .begin(alloc, &mut self.kernels, &self.name, pid, running)
            }
            _ => Ok(()),
        }
    }

    fn activate(&mut self, alloc: Global, grant: Grant) -> Result<(), AllocError>
        ensures { self.new.desk ≡ self.old.desk }
    {
        match grant {
            Grant::Number(zid) if self.kernels.zid_free(zid) => {
                match self
                    .kernel
                    .activate(alloc, &mut self.kernels, &self.name, zid)
                {
                    Ok(()) => Ok(()),
                    Err(_) => Err(AllocError),
                }
            }
            _ => Ok(()),
        }
    }

    fn claim(&mut self, alloc: Global, claim: &Claim, grant: Grant) -> Result<(), AllocError>
        ensures { self.new.desk ≡ self.old.desk }
    {
        let Grant::Yes = grant else {
            return Ok(());
        };
        let item = claim.item.copy(alloc)?;
        match self
            .claims
            .claim(alloc, &mut self.items, claim.kind, item, &self.name)
        {
            Ok(()) => Ok(()),
            Err(_) => Err(AllocError),
        }
    }

    fn let_in(&mut self, alloc: Global, it: &Came, grant: Grant) -> Result<(), AllocError>
        ensures { self.new.desk ≡ self.old.desk }
    {
        match it {
            Came::Process(running, _) => self.begin(alloc, running, grant),
            Came::Id => self.activate(alloc, grant),
            Came::Claim(claim) => self.claim(alloc, claim, grant),
            Came::Record(_, _) | Came::Moved(_, _, _) | Came::Source(_) => Ok(()),
        }
    }

    // What a case brings comes, and room is made for a mount.
    fn come(&mut self, alloc: Global, case: &TurnCase, grant: Grant) -> Result<(), AllocError>
        ensures { self.new.desk ≡ self.old.desk }
    {
        match case {
            TurnCase::GoOn(JobCase::Ask(it, _)) => self.let_in(alloc, it, grant),
            TurnCase::GoOn(JobCase::Pass(_)) => self.mounts.reserve(),
            _ => Ok(()),
        }
    }

    fn mount(&mut self, mount: Mount) -> Result<(), AllocError> {
        match self.mounts.mount(mount) {
            Ok(()) => Ok(()),
            Err(_) => Err(AllocError),
        }
    }

    fn unmount(&mut self, dir: &AbsPath) {
        self.mounts.take_out(dir);
    }

    fn set_limits(&mut self, limits: Box<Limits>) {
        let limits = Box::into_inner(limits);
        self.kernel
            .set_limits(limits.set, limits.most, limits.fs_allowed);
    }

    fn set_devices(&mut self, devices: Listing<AbsPath>) {
        self.kernel.set_devices(devices.into_vec());
    }

    fn end_claim(&mut self) {
        self.claims.release_last(&mut self.items);
    }

    fn unmount_last(&mut self) -> Gone {
        match self.mounts.take_last() {
            Some(mount) => Gone::Mount(mount.dir),
            None => Gone::Nothing,
        }
    }

    fn release_last(&mut self) -> Gone {
        match self.claims.release_last(&mut self.items) {
            Some(claim) => Gone::Claim(claim),
            None => Gone::Nothing,
        }
    }

    fn end_ids(&mut self) {
        self.kernel.give_up_id(&mut self.kernels);
    }

    fn end_processes(&mut self) {
        self.kernel.kill_all(&mut self.kernels);
    }

    fn set_bootargs(&mut self, args: Text) {
        self.kernel.set_bootargs(args);
    }

    fn drop_devices(&mut self) {
        self.kernel.drop_devices();
    }

    fn clear_limits(&mut self, alloc: Global) {
        self.kernel.clear_limits(alloc);
    }

    fn clear(&mut self, alloc: Global) {
        self.kernel.clear(alloc);
    }

    // What a turn does to the objects, but for a mount that comes and what goes as the last.
    fn edit(&mut self, alloc: Global, edit: ObjectEdit) {
        match edit {
            ObjectEdit::EndProcesses => self.end_processes(),
            ObjectEdit::Unmount(dir) => self.unmount(&dir),
            ObjectEdit::EndClaim => self.end_claim(),
            ObjectEdit::SetDevices(devices) => self.set_devices(devices),
            ObjectEdit::DropDevices => self.drop_devices(),
            ObjectEdit::EndIds => self.end_ids(),
            ObjectEdit::SetLimits(limits) => self.set_limits(limits),
            ObjectEdit::SetBootargs(args) => self.set_bootargs(args),
            ObjectEdit::ClearLimits => self.clear_limits(alloc),
            ObjectEdit::Clear => self.clear(alloc),
            ObjectEdit::Nothing
            | ObjectEdit::EndProcess(_)
            | ObjectEdit::Rename(_, _)
            | ObjectEdit::GiveUp(_, _)
            | ObjectEdit::Mount(_)
            | ObjectEdit::UnmountLast(_)
            | ObjectEdit::Hold(_)
            | ObjectEdit::Release(_)
            | ObjectEdit::ReleaseLast(_) => {}
        }
    }

    // What a turn does to the objects, and what goes as the last.
    fn change(&mut self, alloc: Global, edit: ObjectEdit) -> Result<Gone, AllocError> {
        match edit {
            ObjectEdit::Mount(mount) => self.mount(Box::into_inner(mount))?,
            ObjectEdit::UnmountLast(_) => return Ok(self.unmount_last()),
            ObjectEdit::ReleaseLast(_) => return Ok(self.release_last()),
            edit => self.edit(alloc, edit),
        }
        Ok(Gone::Nothing)
    }

    fn store(&mut self, stored: Option<Stored>) {
        if let Some(stored) = stored {
            self.row = Some(Box::into_inner(stored.row));
            self.serial = self.serial.saturating_add(1);
        }
    }

    // A case is done under a grant; all that takes memory comes first.
    fn perform(
        &mut self,
        alloc: Global,
        case: TurnCase,
        grant: Grant,
    ) -> Result<TurnReply, AllocError>
        requires of { IsTurnOf self.old.desk case }
        requires numbered { IsNumberedTurn case grant }
    {
        self.desk.reserve_turn(&case)?;
        self.come(alloc, &case, grant)?;
        let work = settle_turn(alloc, &mut self.desk, case, grant);
        self.store(work.stored);
        let gone = self.change(alloc, work.objects)?;
        Ok(work.reply.with_gone(gone))
    }

    /// One turn. Where memory runs out nothing is changed.
    pub fn turn(&mut self, alloc: Global) -> Result<TurnReply, AllocError> {
        let case = self.decide(alloc)?;
        let grant = self.grant_for(&case);
        if !is_numbered(&case, grant) {
            return Err(AllocError);
        }
        self.perform(alloc, case, grant)
    }

    // One turn, told after what is there, and whether there was something to do.
    fn tell(&mut self, alloc: Global, out: &mut Vec<u8>) -> Result<bool, AllocError> {
        let reply = self.turn(alloc)?;
        push_turn(out, &reply)?;
        out.push(b'\n')?;
        Ok(!matches!(reply, TurnReply::Idle))
    }

    /// So many turns, or fewer where the zone is idle before: what they report, each on a line.
    pub fn turns(&mut self, alloc: Global, most: usize) -> Result<Vec<u8>, AllocError> {
        let mut out = Vec::new(alloc);
        for _ in 0..most {
            if !self.tell(alloc, &mut out)? {
                return Ok(out);
            }
        }
        Ok(out)
    }

    /// A request is put on the desk, and turns are taken until the zone is idle: what they report.
    pub fn run(&mut self, alloc: Global, request: Request) -> Result<Vec<u8>, AllocError> {
        self.put(alloc, request)?;
        self.turns(alloc, 64)
    }

    /// The global zone holds the mount at a directory from now on.
    pub fn hold(&mut self, alloc: Global, dir: &[u8]) -> Result<bool, Fail> {
        let dir = AbsPath::read(alloc, dir)?;
        Ok(self.mounts.hold(&dir).is_ok())
    }

    /// The global zone holds it no more.
    pub fn release(&mut self, alloc: Global, dir: &[u8]) -> Result<bool, Fail> {
        let dir = AbsPath::read(alloc, dir)?;
        Ok(self.mounts.release(&dir).is_ok())
    }

    /// A process enters, as by zlogin(1); whether it may.
    pub fn enter(&mut self, alloc: Global, pid: u32) -> Result<bool, Fail> {
        let name = Text::read(alloc, b"sh")?;
        if !self.kernels.pid_free(pid) {
            return Ok(false);
        }
        let entered = self
            .kernel
            .enter(alloc, &mut self.kernels, &self.name, name, false, pid);
        Ok(entered.is_ok())
    }

    /// What is stored of the zone is in another state from now on.
    pub fn put_state(&mut self, state: ZoneState) -> Result<(), AllocError> {
        if let Some(row) = &self.row
            && state.is_stored()
        {
            self.row = Some(row.in_state(state)?);
        }
        Ok(())
    }
}

/// A request is run until the zone is idle, and what its turns report is compared.
pub fn check_run<R: Abort + AllocGlobal>(
    rt: &R,
    zone: &mut Zone,
    request: Request,
    wanted: &str,
) -> Result<(), Fail> {
    let told = zone.run(rt.alloc(), request)?;
    assert_eq!(rt; str::from_utf8(&told)?, wanted);
    Ok(())
}

/// So many turns are taken, and what they report is compared.
pub fn check_turns<R: Abort + AllocGlobal>(
    rt: &R,
    zone: &mut Zone,
    most: usize,
    wanted: &str,
) -> Result<(), Fail> {
    let told = zone.turns(rt.alloc(), most)?;
    assert_eq!(rt; str::from_utf8(&told)?, wanted);
    Ok(())
}

/// What the zone has is compared.
pub fn check_has<R: Abort + AllocGlobal>(rt: &R, zone: &Zone, wanted: &str) -> Result<(), Fail> {
    let told = what_it_has(rt.alloc(), zone)?;
    assert_eq!(rt; str::from_utf8(&told)?, wanted);
    Ok(())
}

/// A request with the arguments of a boot.
pub fn booting(alloc: Global, args: &[u8]) -> Result<Request, Fail> {
    Ok(Request::Boot(Text::read(alloc, args)?))
}

/// A request to halt and to boot again.
pub fn rebooting(alloc: Global, args: &[u8]) -> Result<Request, Fail> {
    Ok(Request::Reboot(Text::read(alloc, args)?))
}
