//! What operations wait for.
ghost use Rattle.std.specs.Prelude.{◌≡◌, ◌≢◌, ℕ, ◌<◌, ◌≤◌, ◌+◌, ◌*◌, ◌^◌, [], All, IfOk, OnOk, OnErr, IfSome, IfNone, Some, None, get_or, length, nat_eq, slice_get, vec_capacity};
ghost use Rattle.indexmap.specs.IndexMap.{get};
ghost use Rattle.goal_limits.specs.declared.limits.TheConstants.{MAX_OPS};
ghost use Rattle.goal_graph.specs.Schedule.{operations};
ghost use Rattle.goal_graph.specs.Fault.{IsOp};
ghost use Rattle.sim_resources.specs.Numbering.{place, latest_at, AreStationed, IsPlain, IsNotAfter, IsNew, AreOnce, HasNumber, HasPair, IsNumbering, DoExist, AreNumbered};
ghost use Rattle.sim_resources.specs.Held.{pair_of};
ghost use Rattle.sim_resources.specs.Stations.{station_of, cpu_alone, side_alone};

use crate::Pair;
use goal_graph::{Kind, Op, OpId, Sched};
use goal_limits::NoMemory;
use indexmap::IndexMap;
use sim_order::Past;
use std::alloc::Global;
use std::marker::Model;

/// What an operation waits for before it works: its cpu and, if it sends or receives, that side of its NIC. A cpu alone
/// and a side alone are stations too.
#[derive(Clone, Copy)]
pub struct Station {
    /// The rank.
    pub rank: u32,
    /// The cpu; `None` for a side alone.
    pub cpu: Option<u8>,
    /// The NIC whose sending side it is, if any.
    pub sends: Option<u8>,
    /// The NIC whose receiving side it is, if any.
    pub receives: Option<u8>,
}

impl Station {
    /// Returns the station of an operation.
    pub fn of(id: OpId, op: Op) -> Station
        ensures is { result ≡ station_of id op }
        ensures plain { IsPlain result }
    {
        let (sends, receives) = match op.kind {
            Kind::Calc { .. } => (None, None),
            Kind::Send { .. } => (Some(op.nic), None),
            Kind::Recv { .. } => (None, Some(op.nic)),
        };
        Station {
            rank: id.rank,
            cpu: Some(op.cpu),
            sends,
            receives,
        }
    }

    // Its cpu alone.
    fn cpu_alone(self) -> Station
        ensures { result ≡ cpu_alone self }
    {
        Station {
            sends: None,
            receives: None,
            ..self
        }
    }

    // Its side alone, or its cpu if it has no side.
    fn side_alone(self) -> Station
        ensures { result ≡ side_alone self }
    {
        match (self.sends, self.receives) {
            (None, None) => self,
            _ => Station { cpu: None, ..self },
        }
    }

    // The place where a rank keeps the number of the station. Stations of one rank have different places.
    fn place(self) -> usize
        ensures is { result ≡ place self }
        ensures below { result < PLACES }
    {
        let side = match (self.sends, self.receives) {
            (None, None) => 0,
            (Some(nic), _) => 1 + usize::from(nic),
            (None, Some(nic)) => 257 + usize::from(nic),
        };
        let cpu = match self.cpu {
            None => 0,
            Some(cpu) => 1 + usize::from(cpu),
        };
        SIDES * cpu + side
    }
}

// The number of sides of a rank, with none as one of them, and of places for stations.
const SIDES: usize = 513;

const PLACES: usize = 257 * SIDES;

// The place of an operation's station.
fn place_of(op: &Op) -> usize
    ensures is { (id : OpId) → result ≡ place (station_of id op.now) }
    ensures plain { (id : OpId) → IsPlain (station_of id op.now) }
    ensures below { result < PLACES }
{
    let nic = usize::from(op.nic);
    let side = match op.kind {
        Kind::Calc { .. } => 0,
        Kind::Send { .. } => 1 + nic,
        Kind::Recv { .. } => 257 + nic,
    };
    SIDES * (1 + usize::from(op.cpu)) + side
}

/// The latest number of a place, and the rank of its station.
#[derive(Clone, Copy)]
pub struct Latest {
    /// The rank of the station.
    pub rank: u32,
    /// The number of the station.
    pub number: u32,
}

/// Where the latest number of each place is kept.
#[derive(Drop)]
pub enum Places {
    /// By the place. The stations of operations use it: they have many places, and a schedule could choose places with
    /// the same hash.
    Table(Vec<Option<Latest>>),
    /// By the hash of the place. Cpus alone and sides alone use it: they have 768 places, too few for equal hashes to
    /// make it slow.
    Map(IndexMap<usize, Latest>),
}

impl Places {
    // The latest number of a place, if it has one.
    fn get(&self, at: usize) -> Option<Latest>
        ensures { result ≡ latest_at self.now at }
    {
        match self {
            Places::Table(table) => read(table, at),
            Places::Map(map) => look_up(map, at),
        }
    }

    // Gives a place its latest number.
    fn set(&mut self, at: usize, latest: Latest) -> Result<(), NoMemory>
        requires { at < PLACES }
        ensures set { OnOk result (latest_at self.new at ≡ Some latest) }
        ensures others { OnOk result ((n : ℕ) → n ≢ at → latest_at self.new n ≡ latest_at self.old n) }
        ensures same { OnErr result ((n : ℕ) → latest_at self.new n ≡ latest_at self.old n) }
    {
        match self {
            Places::Table(table) => write(table, at, latest),
            Places::Map(map) => {
                map.insert(at, latest)?;
                Ok(())
            }
        }
    }
}

// The latest number of a place in a map. It is not inlined, so that a read in a table stays short.
#[inline(never)]
fn look_up(map: &IndexMap<usize, Latest>, at: usize) -> Option<Latest>
    ensures { result ≡ get nat_eq map.now at }
{
    map.get(&at).copied()
}

// The latest number of a place in a table, which may be too short to have it.
fn read(table: &[Option<Latest>], at: usize) -> Option<Latest>
    ensures { result ≡ get_or table.now at None }
{
    if at >= table.len() {
        return None;
    }
    table[at]
}

// Gives a place in a table its latest number. A table that is too short is extended.
fn write(table: &mut Vec<Option<Latest>>, at: usize, latest: Latest) -> Result<(), NoMemory>
    requires { at < PLACES }
    ensures set { OnOk result (get_or table.new.items at None ≡ Some latest) }
    ensures others { (n : ℕ) → n ≢ at → get_or table.new.items n None ≡ get_or table.old.items n None }
    ensures same { OnErr result (table.new.items ≡ table.old.items) }
{
    if at >= table.len() {
        table.resize(at + 1, None)?;
    }
    table[at] = Some(latest);
    Ok(())
}

// Stations in the order of their first occurrence, each once. Contracts see it as a list of them.
#[derive(Drop)]
struct Stations {
    // for proofs only
    seen: Past<Station>,
    count: u32,
    // the latest number of each place
    places: Places,
}

impl Model for Stations {
    ghost use Rattle.std.specs.Prelude.{◌≡◌, List, length};
    ghost use Rattle.sim_resources.specs.declared.station.Station.{Station};
    ghost use Rattle.sim_resources.specs.Numbering.{latest_at, ArePlaced};

    ghost Value = { List Station };

    ghost view = { λ s. s.seen.items };

    ghost invariant = { λ s. ArePlaced s.seen.items (latest_at s.places) × (s.count ≡ length s.seen.items) };
}

// The latest number of a place, if it is of this rank.
fn given(latest: Option<Latest>, rank: u32) -> Option<u32>
    ensures some { IfSome result (λ number. latest ≡ Some (record { rank = rank; number = number })) }
    ensures none { IfNone result ((number : ℕ) → latest ≢ Some (record { rank = rank; number = number })) }
{
    match latest {
        Some(latest) if latest.rank == rank => Some(latest.number),
        _ => None,
    }
}

impl Stations {
    // No stations.
    fn new(places: Places) -> Stations
        requires { (n : ℕ) → latest_at places n ≡ None }
        ensures { result ≡ [] }
    {
        Stations {
            seen: Past::new(),
            count: 0,
            places,
        }
    }

    // The number of the station of a rank that is at this place. It is called with ascending ranks.
    fn find(&self, rank: u32, at: usize) -> Option<u32>
        ensures some { IfSome result (λ number. (s : Station) → IsPlain s → s.rank ≡ rank → place s ≡ at → slice_get self.now number ≡ Some s) }
        ensures none { IfNone result ((s : Station) → IsNotAfter self.now s.rank → s.rank ≡ rank → place s ≡ at → IsNew self.now s) }
        ensures once { AreOnce self.now }
    {
        given(self.places.get(at), rank)
    }

    // Adds a station that is not among them, and returns its number. It is called with ascending ranks.
    fn add(&mut self, station: Station, at: usize) -> Result<u32, NoMemory>
        requires by_rank { IsNotAfter self.old station.rank }
        requires plain { IsPlain station }
        requires new { IsNew self.old station }
        requires place { at ≡ place station }
        requires below { at < PLACES }
        requires few { length self.old + 1 < 2 ^ 32 }
        ensures next { IfOk result (λ number. number ≡ length self.old) }
        ensures number { IfOk result (HasNumber self.old self.new station) }
        ensures once { IfOk result (λ n. AreOnce self.new) }
    {
        let rank = station.rank;
        let number = self.count;
        self.places.set(at, Latest { rank, number })?;
        self.seen.push(&station);
        self.count = number + 1;
        Ok(number)
    }

    // The number of a station: the one that it has, or the next. It is called with ascending ranks.
    fn number(&mut self, station: Station) -> Result<u32, NoMemory>
        requires by_rank { IsNotAfter self.old station.rank }
        requires plain { IsPlain station }
        requires few { length self.old + 1 < 2 ^ 32 }
        ensures number { IfOk result (HasNumber self.old self.new station) }
        ensures once { IfOk result (λ n. AreOnce self.new) }
    {
        let at = station.place();
        match self.find(station.rank, at) {
            Some(number) => Ok(number),
            None => self.add(station, at),
        }
    }
}

/// The stations of the operations so far, and the resources of each: the numbers of its cpu and of its side.
#[derive(Drop)]
struct Numbering {
    stations: Stations,
    resources: Stations,
    pairs: Vec<Pair>,
}

// The resources of a station, by their numbers.
fn pair_of(resources: &mut Stations, station: Station) -> Result<Pair, NoMemory>
    requires by_rank { IsNotAfter resources.old station.rank }
    requires plain { IsPlain station }
    requires few { length resources.old + 2 < 2 ^ 32 }
    ensures pair { IfOk result (HasPair resources.old resources.new station) }
    ensures once { IfOk result (λ p. AreOnce resources.new) }
{
    let cpu = resources.number(station.cpu_alone())?;
    let side = resources.number(station.side_alone())?;
    Ok(Pair { cpu, side })
}

impl Numbering {
    // Without stations.
    fn new(alloc: Global) -> Numbering
        ensures stations { result.stations ≡ [] }
        ensures resources { result.resources ≡ [] }
        ensures pairs { result.pairs.items ≡ [] }
    {
        Numbering {
            stations: Stations::new(Places::Table(Vec::new(alloc))),
            resources: Stations::new(Places::Map(IndexMap::new(alloc))),
            pairs: Vec::new(alloc),
        }
    }

    // Adds a station that is not among them, and its resources, and returns its number.
    #[inline(never)]
    fn add(&mut self, station: Station, at: usize) -> Result<u32, NoMemory>
        requires numbered { IsNumbering self.old.stations self.old.resources self.old.pairs.items }
        requires by_rank { IsNotAfter self.old.stations station.rank }
        requires plain { IsPlain station }
        requires new { IsNew self.old.stations station }
        requires place { at ≡ place station }
        requires below { at < PLACES }
        requires few { length self.old.stations < MAX_OPS }
        ensures numbered { OnOk result (IsNumbering self.new.stations self.new.resources self.new.pairs.items) }
        ensures number { IfOk result (HasNumber self.old.stations self.new.stations station) }
    {
        let number = self.stations.add(station, at)?;
        let pair = pair_of(&mut self.resources, station)?;
        self.pairs.push(pair)?;
        Ok(number)
    }

    // The number of an operation's station. Its resources have numbers then.
    fn number(&mut self, id: OpId, op: &Op) -> Result<u32, NoMemory>
        requires numbered { IsNumbering self.old.stations self.old.resources self.old.pairs.items }
        requires by_rank { IsNotAfter self.old.stations id.rank }
        requires few { length self.old.stations < MAX_OPS }
        ensures numbered { OnOk result (IsNumbering self.new.stations self.new.resources self.new.pairs.items) }
        ensures number { IfOk result (HasNumber self.old.stations self.new.stations (station_of id op.now)) }
    {
        let at = place_of(op);
        match self.stations.find(id.rank, at) {
            Some(number) => Ok(number),
            None => self.add(Station::of(id, *op), at),
        }
    }
}

/// The numbers of the stations of a schedule and of their resources.
#[derive(Drop)]
pub struct StationNumbers {
    /// The number of each operation's station, in the order of all operations.
    pub numbers: Vec<u32>,
    /// The numbers of the two resources of each station.
    pub pairs: Vec<Pair>,
    /// The number of resources; their numbers are less.
    pub resources: u32,
}

// Numbers the stations of a schedule.
fn number_all(
    sched: &Sched,
    numbering: &mut Numbering,
    numbers: &mut Vec<u32>,
) -> Result<(), NoMemory>
    requires few { length (operations sched.now) ≤ MAX_OPS }
    requires room { length (operations sched.now) ≤ vec_capacity numbers.old }
    requires none { (numbering.old.stations ≡ []) × (numbering.old.resources ≡ []) × (numbering.old.pairs.items ≡ []) × (numbers.old.items ≡ []) }
    ensures few { OnOk result (length numbers.new.items ≤ MAX_OPS) }
    ensures few_stations { OnOk result (length numbering.new.pairs.items ≤ length numbers.new.items) }
    ensures few_resources { OnOk result (length numbering.new.resources ≤ 2 * length numbers.new.items) }
    ensures within { OnOk result (All (λ number. number < length numbering.new.pairs.items) numbers.new.items) }
    ensures exist { OnOk result (DoExist numbering.new.pairs.items (length numbering.new.resources)) }
    ensures stationed { OnOk result (AreStationed sched.now numbers.new.items numbering.new.pairs.items) }
{
    for id in sched.operations() {
        let number = numbering.number(*id, sched.op(*id))?;
        numbers.push_reserved(number);
    }
    Ok(())
}

impl StationNumbers {
    /// Numbers the stations of a schedule and their resources, in the order of their first operations. `Err` means out
    /// of memory.
    pub fn new(alloc: Global, sched: &Sched) -> Result<StationNumbers, NoMemory>
        ensures { IfOk result (AreNumbered sched.now) }
    {
        let mut numbering = Numbering::new(alloc);
        let mut numbers = Vec::with_capacity(alloc, sched.count() as usize)?;
        number_all(sched, &mut numbering, &mut numbers)?;
        let Numbering {
            resources,
            pairs,
            ..
        } = numbering;
        let resources = resources.count;
        Ok(StationNumbers {
            numbers,
            pairs,
            resources,
        })
    }

    /// Returns the numbers of the resources of an operation.
    pub fn pair_of(&self, sched: &Sched, id: OpId) -> Pair
        requires exists { IsOp sched.now id }
        requires numbered { AreNumbered sched.now self.now }
        ensures { result ≡ pair_of sched.now self.now id }
    {
        let number = self.numbers[sched.index(id) as usize];
        self.pairs[number as usize]
    }
}
