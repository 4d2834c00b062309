//! The rules of events, word for word. It keeps only the actions so far, and searches all of them for each result.
use goal_graph::{Class, Kind, Op, OpId, RankPlan, Timed, When};
use sim_params::Params;
use std::alloc::{AllocError, Global};

// The classes, in their order.
const CLASSES: [Class; 5] = [
    Class::Arrive,
    Class::Serve,
    Class::Data,
    Class::Post,
    Class::Begin,
];

// More actions than a small schedule has.
const ENOUGH: u32 = 200;

// A send and the receive that takes it, and when they were paired.
#[derive(Clone, Copy)]
struct MatchedPair {
    send: OpId,
    recv: OpId,
    at: u64,
}

#[derive(Clone, Copy, PartialEq, Eq)]
enum Resource {
    Cpu,
    Tx,
    Rx,
}

/// What the rules say after a history, whose oldest action is the first.
#[derive(Drop)]
pub struct AfterHistory<'a> {
    plans: &'a [RankPlan],
    params: Params,
    history: &'a [Timed],
    // computed from the history
    pairs: Vec<MatchedPair>,
}

/// All actions of a run, the oldest first. `Err` means out of memory.
pub fn run(alloc: Global, plans: &[RankPlan], params: Params) -> Result<Vec<Timed>, AllocError> {
    let mut history = Vec::new(alloc);
    for _ in 0..ENOUGH {
        let next = AfterHistory::of(alloc, plans, params, &history)?.next();
        match next {
            Some(action) => history.push(action)?,
            None => break,
        }
    }
    Ok(history)
}

impl<'a> AfterHistory<'a> {
    /// Reads a history, whose oldest action is the first. `Err` means out of memory.
    pub fn of(
        alloc: Global,
        plans: &'a [RankPlan],
        params: Params,
        history: &'a [Timed],
    ) -> Result<AfterHistory<'a>, AllocError> {
        let pairs = Vec::new(alloc);
        let mut after = AfterHistory {
            plans,
            params,
            history,
            pairs,
        };
        for (i, action) in history.iter().enumerate() {
            if let Some(pair) = after.new_pair(&history[..i], *action) {
                after.pairs.push(pair)?;
            }
        }
        Ok(after)
    }

    // The pair that an action makes after earlier ones: with the first operation that is not paired and fits.
    fn new_pair(&self, earlier: &[Timed], action: Timed) -> Option<MatchedPair> {
        for other in earlier {
            let (send, recv) = match (action.class, other.class) {
                (Class::Arrive, Class::Post) => (action.op, other.op),
                (Class::Post, Class::Arrive) => (other.op, action.op),
                _ => continue,
            };
            if self.pair(other.op).is_none() && self.fits(recv, send) {
                let at = action.time;
                return Some(MatchedPair { send, recv, at });
            }
        }
        None
    }

    fn fits(&self, recv: OpId, send: OpId) -> bool {
        match (self.kind(recv), self.kind(send)) {
            (
                Some(
                    Kind::Recv {
                        from,
                        tag: wanted,
                        ..
                    },
                ),
                Some(Kind::Send { to, tag, .. }),
            ) => {
                to == recv.rank
                    && from.unwrap_or(send.rank) == send.rank
                    && wanted.unwrap_or(tag) == tag
            }
            _ => false,
        }
    }

    fn pair(&self, x: OpId) -> Option<MatchedPair> {
        for pair in &self.pairs {
            if pair.send == x || pair.recv == x {
                return Some(*pair);
            }
        }
        None
    }

    fn op(&self, x: OpId) -> Option<Op> {
        let plan = self.plans.get(x.rank as usize)?;
        plan.ops.get(x.op as usize).copied()
    }

    fn kind(&self, x: OpId) -> Option<Kind> {
        Some(self.op(x)?.kind)
    }

    // The size of the message of a send.
    fn bytes(&self, send: OpId) -> Option<u64> {
        match self.kind(send)? {
            Kind::Send { bytes, .. } => Some(bytes),
            _ => None,
        }
    }

    fn is_eager(&self, bytes: u64) -> bool {
        bytes <= self.params.sync
    }

    fn over(&self, bytes: u64) -> u64 {
        let body = bytes.saturating_sub(1);
        let per_byte = self.params.overhead_per_byte;
        self.params
            .overhead
            .saturating_add(per_byte.saturating_mul(body))
    }

    fn gap(&self, bytes: u64) -> u64 {
        let body = bytes.saturating_sub(1);
        let per_byte = self.params.gap_per_byte;
        self.params
            .gap
            .saturating_add(per_byte.saturating_mul(body))
    }

    fn flight(&self, bytes: u64) -> u64 {
        let body = bytes.saturating_sub(1);
        let per_byte = self.params.overhead_per_byte.max(self.params.gap_per_byte);
        self.params
            .overhead
            .saturating_add(per_byte.saturating_mul(body))
            .saturating_add(self.params.latency)
    }

    // When an action happened.
    fn at(&self, class: Class, x: OpId) -> Option<u64> {
        for action in self.history {
            if action.class == class && action.op == x {
                return Some(action.time);
            }
        }
        None
    }

    // How long an action holds a resource, if it does.
    fn hold(&self, resource: Resource, class: Class, x: OpId) -> Option<u64> {
        let bytes = match (class, self.kind(x)?) {
            (Class::Begin, Kind::Calc { nanos }) => {
                return if resource == Resource::Cpu {
                    Some(nanos)
                } else {
                    None
                };
            }
            (Class::Begin, Kind::Send { bytes, .. }) => {
                if self.is_eager(bytes) { bytes } else { 1 }
            }
            (Class::Data, Kind::Send { bytes, .. }) => bytes,
            (Class::Serve, Kind::Recv { .. }) => self.bytes(self.pair(x)?.send)?,
            _ => return None,
        };
        match (resource, class) {
            (Resource::Cpu, _) => Some(self.over(bytes)),
            (Resource::Tx, Class::Begin | Class::Data) => Some(self.gap(bytes)),
            (Resource::Rx, Class::Serve) => Some(self.gap(bytes)),
            _ => None,
        }
    }

    // Whether two operations use the same resource.
    fn share(&self, resource: Resource, x: OpId, y: OpId) -> bool {
        let (Some(first), Some(second)) = (self.op(x), self.op(y)) else {
            return false;
        };
        let same = match resource {
            Resource::Cpu => first.cpu == second.cpu,
            Resource::Tx | Resource::Rx => first.nic == second.nic,
        };
        x.rank == y.rank && same
    }

    // When the resource that an operation uses is free.
    fn free(&self, resource: Resource, x: OpId) -> u64 {
        let mut free: u64 = 0;
        for action in self.history {
            if !self.share(resource, x, action.op) {
                continue;
            }
            if let Some(hold) = self.hold(resource, action.class, action.op) {
                free = free.max(action.time.saturating_add(hold));
            }
        }
        free
    }

    /// When an operation started, in nanoseconds, if it has.
    pub fn start(&self, x: OpId) -> Option<u64> {
        self.at(Class::Begin, x).or(self.at(Class::Post, x))
    }

    /// When an operation ends, in nanoseconds, once this is known.
    pub fn end(&self, x: OpId) -> Option<u64> {
        let last = match self.kind(x)? {
            Kind::Calc { .. } => Class::Begin,
            Kind::Send { bytes, .. } => {
                if self.is_eager(bytes) {
                    Class::Begin
                } else {
                    Class::Data
                }
            }
            Kind::Recv { .. } => Class::Serve,
        };
        let hold = self.hold(Resource::Cpu, last, x)?;
        Some(self.at(last, x)?.saturating_add(hold))
    }

    /// The operation with which this one is paired, if any.
    pub fn partner(&self, x: OpId) -> Option<OpId> {
        let pair = self.pair(x)?;
        Some(if pair.send == x { pair.recv } else { pair.send })
    }

    // The greatest of the starts and ends that an operation waits for, once all have happened.
    fn ready(&self, x: OpId) -> Option<u64> {
        let mut ready: u64 = 0;
        for dep in &self.plans.get(x.rank as usize)?.deps {
            if dep.later != x.op {
                continue;
            }
            let earlier = OpId {
                rank: x.rank,
                op: dep.earlier,
            };
            let met = match dep.when {
                When::AfterEnd => self.end(earlier)?,
                When::AfterStart => self.start(earlier)?,
            };
            ready = ready.max(met);
        }
        Some(ready)
    }

    // When an action is possible, if it is.
    fn time(&self, class: Class, x: OpId) -> Option<u64> {
        if self.at(class, x).is_some() {
            return None;
        }
        let cpu = self.free(Resource::Cpu, x);
        let tx = self.free(Resource::Tx, x);
        let rx = self.free(Resource::Rx, x);
        match (class, self.kind(x)?) {
            (Class::Arrive, Kind::Send { bytes, .. }) => {
                let sent = if self.is_eager(bytes) { bytes } else { 1 };
                Some(self.start(x)?.saturating_add(self.flight(sent)))
            }
            (Class::Serve, Kind::Recv { .. }) => Some(self.there(self.pair(x)?)?.max(cpu).max(rx)),
            (Class::Data, Kind::Send { bytes, .. }) if !self.is_eager(bytes) => {
                let cleared = self.pair(x)?.at.saturating_add(self.params.latency);
                Some(cleared.max(cpu).max(tx))
            }
            (Class::Post, Kind::Recv { .. }) => self.ready(x),
            (Class::Begin, Kind::Calc { .. }) => Some(self.ready(x)?.max(cpu)),
            (Class::Begin, Kind::Send { .. }) => Some(self.ready(x)?.max(cpu).max(tx)),
            _ => None,
        }
    }

    // When the message of a pair is available to its receive.
    fn there(&self, pair: MatchedPair) -> Option<u64> {
        let bytes = self.bytes(pair.send)?;
        if self.is_eager(bytes) {
            return Some(pair.at);
        }
        let handed_over = self.at(Class::Data, pair.send)?;
        Some(handed_over.saturating_add(self.flight(bytes)))
    }

    /// The possible action with the least key, if any.
    pub fn next(&self) -> Option<Timed> {
        let mut next: Option<Timed> = None;
        for (rank, plan) in (0..).zip(self.plans) {
            for (op, _) in (0..).zip(&plan.ops) {
                let op = OpId { rank, op };
                for class in CLASSES {
                    if let Some(time) = self.time(class, op) {
                        let action = Timed { time, class, op };
                        let is_less = next.is_none_or(|best| key(action) < key(best));
                        if is_less {
                            next = Some(action);
                        }
                    }
                }
            }
        }
        next
    }
}

fn key(action: Timed) -> (u64, Class, OpId) {
    (action.time, action.class, action.op)
}
