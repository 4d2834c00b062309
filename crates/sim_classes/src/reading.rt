//! Reading a machine from its text.
ghost use Rattle.std.specs.Prelude.{ℕ, List, [], ◌∷◌, ◌++◌, ◌≡◌, ◌≢◌, ◌≤◌, ◌<◌, Ok, Err, None, map, length, codes, Some, IfOk, IfErr};
ghost use Rattle.goal_limits.specs.declared.limits.TheConstants.{MAX_RANKS};
ghost use Rattle.sim_params.specs.Costs.{Numbers};
ghost use Rattle.sim_params.specs.Numbers.{numbers};
ghost use Rattle.sim_classes.specs.declared.machine.TheConstants.{MAX_NODE};
ghost use Rattle.sim_classes.specs.declared.fault.MachineFault.TheVariants.{NoMemory};
ghost use Rattle.sim_classes.specs.Machine.{MachineModel, machine_with};
ghost use Rattle.sim_classes.specs.Parts.{pair_class_by};
ghost use Rattle.sim_classes.specs.MachineModels.{machine_model};
ghost use Rattle.sim_classes.specs.Form.{Form, Fixed, Value, between, read_by_form, class_part, classes_part, places_part, nodes_part, triples_part, triples, new_target, machine};

use crate::fault::MachineFault;
use crate::machine::{MAX_CLASSES, MAX_NODE, MAX_PAIRS, Machine};
use crate::pair_classes::{PairClasses, pair_key};
use crate::words::Words;
use goal_limits::{MAX_PARAM, MAX_PER_BYTE, MAX_RANKS};
use sim_params::{MAX_PICOS, Params};
use std::alloc::Global;
use std::collections::BTreeMap;

// Reads the parameters of a class.
fn read_class(words: &mut Words<'_>) -> Result<Params, MachineFault>
    ensures next { IfOk result (λ p. (rest : Numbers → Form)
        → read_by_form (class_part rest) words.old.place words.old.words ≡ read_by_form (rest (numbers p)) words.new.place words.new.words) }
    ensures fault { IfErr result (λ fault. (rest : Numbers → Form)
        → read_by_form (class_part rest) words.old.place words.old.words ≡ Err fault) }
{
    let latency = words.number_from(0, MAX_PARAM)?;
    let overhead = words.number_from(0, MAX_PARAM)?;
    let gap = words.number_from(0, MAX_PARAM)?;
    let gap_per_byte = words.number_from(0, MAX_PER_BYTE)?;
    let gap_picos = words.number_from(0, MAX_PICOS)?;
    let overhead_per_byte = words.number_from(0, MAX_PER_BYTE)?;
    let overhead_picos = words.number_from(0, MAX_PICOS)?;
    let sync = words.number_from(0, MAX_PARAM)?;
    Ok(Params {
        latency,
        overhead,
        gap,
        gap_per_byte,
        gap_picos,
        overhead_per_byte,
        overhead_picos,
        sync,
    })
}

// Reads the parameters of `count` classes.
fn read_classes(
    alloc: Global,
    words: &mut Words<'_>,
    count: u64,
) -> Result<Vec<Params>, MachineFault>
    ensures next { IfOk result (λ v. read_by_form (classes_part count []) words.old.place words.old.words
        ≡ read_by_form (places_part (map numbers v.items)) words.new.place words.new.words) }
    ensures count { IfOk result (λ v. length v.items ≡ count) }
    ensures fault { IfErr result (λ fault. fault ≢ NoMemory
        → read_by_form (classes_part count []) words.old.place words.old.words ≡ Err fault) }
{
    let mut classes = Vec::new(alloc);
    for _ in 0..count {
        words.fixed("class")?;
        classes.push(read_class(words)?)?;
    }
    Ok(classes)
}

// Reads the nodes of `count` ranks.
fn read_nodes(alloc: Global, words: &mut Words<'_>, count: u64) -> Result<Vec<u32>, MachineFault>
    ensures next { IfOk result (λ v. (classes : List Numbers) (inside usual : ℕ)
        → read_by_form (nodes_part count classes inside usual []) words.old.place words.old.words
        ≡ read_by_form (triples_part classes inside usual v.items) words.new.place words.new.words) }
    ensures count { IfOk result (λ v. length v.items ≡ count) }
    ensures fault { IfErr result (λ fault. fault ≢ NoMemory → (classes : List Numbers) (inside usual : ℕ)
        → read_by_form (nodes_part count classes inside usual []) words.old.place words.old.words ≡ Err fault) }
{
    let mut nodes = Vec::new(alloc);
    for _ in 0..count {
        nodes.push(words.number_from(0, MAX_NODE)? as u32)?;
    }
    Ok(nodes)
}

// Reads a node for which the class from node `from` is not yet given.
fn read_target(
    words: &mut Words<'_>,
    pair_classes: &BTreeMap<u64, u32>,
    from: u32,
) -> Result<u32, MachineFault>
    ensures next { IfOk result (λ n. (m : MachineModel) (rest : ℕ → Form) → m.pair_classes ≡ pair_class_by pair_classes.now.entries
        → read_by_form (Value (new_target m from) rest) words.old.place words.old.words
        ≡ read_by_form (rest n) words.new.place words.new.words) }
    ensures within { IfOk result (λ n. n ≤ MAX_NODE) }
    ensures fault { IfErr result (λ fault. (m : MachineModel) (rest : ℕ → Form) → m.pair_classes ≡ pair_class_by pair_classes.now.entries
        → read_by_form (Value (new_target m from) rest) words.old.place words.old.words ≡ Err fault) }
{
    let (at, value) = words.number()?;
    if value > u128::from(MAX_NODE) {
        return Err(MachineFault::Number { at });
    }
    let target = value as u32;
    if pair_classes.contains_key(&pair_key(from, target)) {
        return Err(MachineFault::Repeat { at });
    }
    Ok(target)
}

// Reads `count` pairs of nodes with the class between them, up to the end of the text.
fn read_pairs(
    alloc: Global,
    words: &mut Words<'_>,
    count: u64,
    classes: u64,
) -> Result<BTreeMap<u64, u32>, MachineFault>
    requires { classes ≤ 16 }
    ensures next { IfOk result (λ pair_classes. (numbers : List Numbers) (inside usual : ℕ) (nodes : List ℕ) → length numbers ≡ classes
        → read_by_form (triples count (machine_with numbers inside usual nodes (λ a b. None))) words.old.place words.old.words
        ≡ Ok (machine_with numbers inside usual nodes (pair_class_by pair_classes.entries))) }
    ensures within { IfOk result (λ pair_classes. (a b class : ℕ) → pair_class_by pair_classes.entries a b ≡ Some class → class < classes) }
    ensures fault { IfErr result (λ fault. fault ≢ NoMemory
        → (numbers : List Numbers) (inside usual : ℕ) (nodes : List ℕ) → length numbers ≡ classes
        → read_by_form (triples count (machine_with numbers inside usual nodes (λ a b. None))) words.old.place words.old.words ≡ Err fault) }
{
    let mut pair_classes = BTreeMap::new(alloc);
    for _ in 0..count {
        let from = words.number_from(0, MAX_NODE)? as u32;
        let to = read_target(words, &pair_classes, from)?;
        let class = words.class_number(classes)? as u32;
        pair_classes.insert(pair_key(from, to), class)?;
    }
    words.end()?;
    Ok(pair_classes)
}

// Reads the class inside a node, and the default class between nodes.
fn read_usual(words: &mut Words<'_>, count: u64) -> Result<(u32, u32), MachineFault>
    requires { count ≤ 16 }
    ensures next { IfOk result (λ p. (classes : List Numbers) → length classes ≡ count
        → read_by_form (places_part classes) words.old.place words.old.words
        ≡ read_by_form (Fixed (codes "ranks") (Value (between 1 MAX_RANKS) (λ ranks. nodes_part ranks classes p.0 p.1 []))) words.new.place words.new.words) }
    ensures within { IfOk result (λ p. (p.0 < count) × (p.1 < count)) }
    ensures fault { IfErr result (λ fault. (classes : List Numbers) → length classes ≡ count
        → read_by_form (places_part classes) words.old.place words.old.words ≡ Err fault) }
{
    words.fixed("inside")?;
    let inside = words.class_number(count)? as u32;
    words.fixed("default")?;
    let usual = words.class_number(count)? as u32;
    Ok((inside, usual))
}

// Reads the node of each rank.
fn read_ranks(alloc: Global, words: &mut Words<'_>) -> Result<Vec<u32>, MachineFault>
    ensures next { IfOk result (λ v. (classes : List Numbers) (inside usual : ℕ)
        → read_by_form (Fixed (codes "ranks") (Value (between 1 MAX_RANKS) (λ ranks. nodes_part ranks classes inside usual []))) words.old.place words.old.words
        ≡ read_by_form (triples_part classes inside usual v.items) words.new.place words.new.words) }
    ensures few { IfOk result (λ v. length v.items ≤ MAX_RANKS) }
    ensures fault { IfErr result (λ fault. fault ≢ NoMemory → (classes : List Numbers) (inside usual : ℕ)
        → read_by_form (Fixed (codes "ranks") (Value (between 1 MAX_RANKS) (λ ranks. nodes_part ranks classes inside usual []))) words.old.place words.old.words ≡ Err fault) }
{
    words.fixed("ranks")?;
    let ranks = words.number_from(1, u64::from(MAX_RANKS))?;
    read_nodes(alloc, words, ranks)
}

// Reads the class given for each pair of nodes, up to the end of the text.
fn read_pair_classes(
    alloc: Global,
    words: &mut Words<'_>,
    classes: u64,
) -> Result<PairClasses, MachineFault>
    requires { classes ≤ 16 }
    ensures next { IfOk result (λ pair_classes. (numbers : List Numbers) (inside usual : ℕ) (nodes : List ℕ) → length numbers ≡ classes
        → read_by_form (triples_part numbers inside usual nodes) words.old.place words.old.words
        ≡ Ok (machine_with numbers inside usual nodes (pair_class_by pair_classes))) }
    ensures within { IfOk result (λ pair_classes. (a b class : ℕ) → pair_class_by pair_classes a b ≡ Some class → class < classes) }
    ensures fault { IfErr result (λ fault. fault ≢ NoMemory
        → (numbers : List Numbers) (inside usual : ℕ) (nodes : List ℕ) → length numbers ≡ classes
        → read_by_form (triples_part numbers inside usual nodes) words.old.place words.old.words ≡ Err fault) }
{
    words.fixed("pairs")?;
    let count = words.number_from(0, MAX_PAIRS)?;
    let pairs = read_pairs(alloc, words, count, classes)?;
    Ok(PairClasses::of(alloc, pairs)?)
}

// Reads what follows the classes.
fn read_places(
    alloc: Global,
    words: &mut Words<'_>,
    classes: Vec<Params>,
) -> Result<Machine, MachineFault>
    requires { length classes.items ≤ 16 }
    ensures next { IfOk result (λ m. read_by_form (places_part (map numbers classes.items)) words.old.place words.old.words ≡ Ok (machine_model m)) }
    ensures fault { IfErr result (λ fault. fault ≢ NoMemory
        → read_by_form (places_part (map numbers classes.items)) words.old.place words.old.words ≡ Err fault) }
{
    let count = classes.len() as u64;
    let (inside, usual) = read_usual(words, count)?;
    let nodes = read_ranks(alloc, words)?;
    let pair_classes = read_pair_classes(alloc, words, count)?;
    Ok(Machine {
        classes,
        inside,
        usual,
        nodes,
        pair_classes,
    })
}

/// Returns the machine that a text describes.
///
/// # Errors
///
/// The fault of the first word that fails, or `NoMemory`.
#[tactic(auto, unfolding(crate::specs::Form::machine))]
pub fn read_machine(alloc: Global, text: &[u8]) -> Result<Machine, MachineFault>
    ensures machine { IfOk result (λ m. machine text.now ≡ Ok (machine_model m)) }
    ensures fault { IfErr result (λ fault. fault ≢ NoMemory → machine text.now ≡ Err fault) }
{
    let mut words = Words::new(text);
    words.fixed("classes")?;
    let count = words.number_from(1, MAX_CLASSES)?;
    let classes = read_classes(alloc, &mut words, count)?;
    read_places(alloc, &mut words, classes)
}
