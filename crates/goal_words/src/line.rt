//! Command lines.
ghost use Rattle.std.specs.Prelude.{◌≡◌, None, Some, ◌⊎◌, IfOk, IfErr, IsErrOf, MatchOption};
ghost use Rattle.goal_words.specs.Words.{command_by, command_in, options_of, sim_of, waits_of, knots_of, nodes_of, compile_of, show_of, gen_of, certify_of, probe_of};
ghost use Rattle.goal_words.specs.Requests.{command, IsSized};
ghost use Rattle.goal_words.specs.Reading.{listed, numbers_given, words_of};

use crate::kinds::{collective_of, number_from};
use crate::options::{AllowedOptions, OptionValues, value_of};
use crate::words_left::{PlainWords, WordsLeft};
use goal_limits::{Collective, MAX_BYTES, MAX_RANKS, MAX_ROUNDS};
use sim_params::Params;
use std::alloc::{AllocError, Global};
use std::marker::Model;

/// The name of a file. Contracts see its bytes.
#[derive(Debug, Drop)]
pub struct FileName {
    text: String,
}

impl Model for FileName {
    ghost use Rattle.std.specs.Prelude.{ℕ, List, string_bytes};

    ghost Value = { List ℕ };

    ghost view = { λ n. string_bytes n.text };
}

impl FileName {
    // The name that is this text.
    fn new(alloc: Global, name: &str) -> Result<FileName, AllocError>
        ensures { IfOk result (λ made. made ≡ name.now) }
    {
        let text = String::from_str(alloc, name)?;
        Ok(FileName { text })
    }

    /// Returns the name.
    pub fn as_str(&self) -> &str
        ensures { result.now ≡ self.now }
    {
        self.text.as_str()
    }
}

/// What a command line asks for. Each line that `read_words` returns is within the limits given here.
#[derive(Debug, Drop)]
pub enum Line {
    /// Run the schedule of the file `name` with these parameters, and print the run.
    Sim {
        name: FileName,
        params: Params,
    },
    /// Run it in the same way, and report how long its operations waited.
    Waits {
        name: FileName,
        params: Params,
    },
    /// Run it in the same way, and print the knots of its stuck operations.
    Knots {
        name: FileName,
        params: Params,
    },
    /// Run it with the costs of the machine described in the file `machine`, and print the run.
    Nodes {
        name: FileName,
        machine: FileName,
    },
    /// Write the compiled file of the schedule of `name` to the file `out`.
    Compile {
        name: FileName,
        out: FileName,
    },
    /// Print the canonical text of the schedule of `name`.
    Show {
        name: FileName,
    },
    /// Print the canonical text of the schedule generated for the collective `what`, for `ranks` ranks (1 to 65,536),
    /// with messages of `bytes` bytes (at most 2^40-1). A root is at most 65,535.
    Gen {
        what: Collective,
        ranks: u32,
        bytes: u64,
    },
    /// Report whether the schedule of `name` is right for the collective `what`, whose root is at most 65,535.
    Certify {
        what: Collective,
        name: FileName,
    },
    /// Run the probe of `rounds` rounds (1 to 300,000), drawn from the seed, with these parameters, and print a
    /// summary.
    Probe {
        rounds: u32,
        seed: u64,
        params: Params,
    },
}

/// Why words are no command line.
#[derive(Clone, Copy, Debug, PartialEq, Eq)]
pub enum LineFault {
    /// They are not a command line of `goal`.
    Bad,
    /// Out of memory.
    NoMemory,
}

impl From<AllocError> for LineFault {
    ghost use Rattle.goal_words.specs.declared.line.LineFault.TheVariants.{NoMemory};

    ghost from_gives = { λ _ fault. fault ≡ NoMemory };

    fn from(_error: AllocError) -> LineFault {
        LineFault::NoMemory
    }
}

/// Returns what the words after the program's name ask for.
///
/// # Errors
///
/// `Bad` if they are no command line; `NoMemory` may come at any time.
pub fn read_words(alloc: Global, words: &[String]) -> Result<Line, LineFault>
    ensures line { IfOk result (λ line. command_in words.now ≡ Some (command line)) }
    ensures sized { IfOk result (λ line. IsSized (command line)) }
    ensures bad { IfErr result (λ fault. fault ≡ LineFault.Bad → command_in words.now ≡ None) }
    ensures bad_exact { command_in words.now ≡ None → IsErrOf result LineFault.Bad ⊎ IsErrOf result LineFault.NoMemory }
{
    let Some((first, words)) = words.split_first() else {
        return Err(LineFault::Bad);
    };
    let first = first.as_str();
    match WordsLeft::new(taken_by(first), words).parts() {
        Some((plain, given)) => read_line(alloc, first, plain, given),
        None => Err(LineFault::Bad),
    }
}

// Returns the options that a command allows, by its first word.
fn taken_by(first: &str) -> AllowedOptions
    ensures { words_of result ≡ options_of first.now }
{
    match first {
        "sim" | "waits" | "knots" | "probe" => AllowedOptions::Run,
        "gen" | "certify" => AllowedOptions::Root,
        _ => AllowedOptions::Nothing,
    }
}

// Returns the line of the first word, the plain words and the options.
fn read_line(
    alloc: Global,
    first: &str,
    plain: PlainWords<'_>,
    given: OptionValues,
) -> Result<Line, LineFault>
    ensures line { IfOk result (λ line. command_by first.now (listed plain.entry) (numbers_given given) given.root ≡ Some (command line)) }
    ensures bad { IfErr result (λ fault. fault ≡ LineFault.Bad → command_by first.now (listed plain.entry) (numbers_given given) given.root ≡ None) }
{
    match first {
        "sim" => read_sim(alloc, plain, given),
        "waits" => read_waits(alloc, plain, given),
        "knots" => read_knots(alloc, plain, given),
        "nodes" => read_nodes(alloc, plain),
        "compile" => read_compile(alloc, plain),
        "show" => read_show(alloc, plain),
        "gen" => match read_gen(plain, given) {
            Some(line) => Ok(line),
            None => Err(LineFault::Bad),
        },
        "certify" => read_certify(alloc, plain, given),
        "probe" => match read_probe(plain, given) {
            Some(line) => Ok(line),
            None => Err(LineFault::Bad),
        },
        _ => Err(LineFault::Bad),
    }
}

// `sim NAME`.
fn read_sim(alloc: Global, plain: PlainWords<'_>, given: OptionValues) -> Result<Line, LineFault>
    ensures line { IfOk result (λ line. sim_of (listed plain.entry) (numbers_given given) ≡ Some (command line)) }
    ensures bad { IfErr result (λ fault. fault ≡ LineFault.Bad → sim_of (listed plain.entry) (numbers_given given) ≡ None) }
{
    let PlainWords::One(name) = plain else {
        return Err(LineFault::Bad);
    };
    let Some(params) = given.params() else {
        return Err(LineFault::Bad);
    };
    let name = FileName::new(alloc, name)?;
    Ok(Line::Sim { name, params })
}

// `waits NAME`.
fn read_waits(alloc: Global, plain: PlainWords<'_>, given: OptionValues) -> Result<Line, LineFault>
    ensures line { IfOk result (λ line. waits_of (listed plain.entry) (numbers_given given) ≡ Some (command line)) }
    ensures bad { IfErr result (λ fault. fault ≡ LineFault.Bad → waits_of (listed plain.entry) (numbers_given given) ≡ None) }
{
    let PlainWords::One(name) = plain else {
        return Err(LineFault::Bad);
    };
    let Some(params) = given.params() else {
        return Err(LineFault::Bad);
    };
    let name = FileName::new(alloc, name)?;
    Ok(Line::Waits { name, params })
}

// `knots NAME`.
fn read_knots(alloc: Global, plain: PlainWords<'_>, given: OptionValues) -> Result<Line, LineFault>
    ensures line { IfOk result (λ line. knots_of (listed plain.entry) (numbers_given given) ≡ Some (command line)) }
    ensures bad { IfErr result (λ fault. fault ≡ LineFault.Bad → knots_of (listed plain.entry) (numbers_given given) ≡ None) }
{
    let PlainWords::One(name) = plain else {
        return Err(LineFault::Bad);
    };
    let Some(params) = given.params() else {
        return Err(LineFault::Bad);
    };
    let name = FileName::new(alloc, name)?;
    Ok(Line::Knots { name, params })
}

// `nodes NAME MACHINE`.
fn read_nodes(alloc: Global, plain: PlainWords<'_>) -> Result<Line, LineFault>
    ensures line { IfOk result (λ line. nodes_of (listed plain.entry) ≡ Some (command line)) }
    ensures bad { IfErr result (λ fault. fault ≡ LineFault.Bad → nodes_of (listed plain.entry) ≡ None) }
{
    let PlainWords::Two(name, machine) = plain else {
        return Err(LineFault::Bad);
    };
    let name = FileName::new(alloc, name)?;
    let machine = FileName::new(alloc, machine)?;
    Ok(Line::Nodes { name, machine })
}

// `compile NAME OUT`.
fn read_compile(alloc: Global, plain: PlainWords<'_>) -> Result<Line, LineFault>
    ensures line { IfOk result (λ line. compile_of (listed plain.entry) ≡ Some (command line)) }
    ensures bad { IfErr result (λ fault. fault ≡ LineFault.Bad → compile_of (listed plain.entry) ≡ None) }
{
    let PlainWords::Two(name, out) = plain else {
        return Err(LineFault::Bad);
    };
    let name = FileName::new(alloc, name)?;
    let out = FileName::new(alloc, out)?;
    Ok(Line::Compile { name, out })
}

// `show NAME`.
fn read_show(alloc: Global, plain: PlainWords<'_>) -> Result<Line, LineFault>
    ensures line { IfOk result (λ line. show_of (listed plain.entry) ≡ Some (command line)) }
    ensures bad { IfErr result (λ fault. fault ≡ LineFault.Bad → show_of (listed plain.entry) ≡ None) }
{
    let PlainWords::One(name) = plain else {
        return Err(LineFault::Bad);
    };
    let name = FileName::new(alloc, name)?;
    Ok(Line::Show { name })
}

// `gen KIND RANKS BYTES`.
fn read_gen(plain: PlainWords<'_>, given: OptionValues) -> Option<Line>
    ensures { MatchOption result (gen_of (listed plain.entry) given.root ≡ None) (λ line. gen_of (listed plain.entry) given.root ≡ Some (command line)) }
{
    let PlainWords::Three(kind, ranks, bytes) = plain else {
        return None;
    };
    let what = collective_of(kind, given.root())?;
    let ranks = number_from(1, MAX_RANKS.into(), ranks)?;
    let bytes = number_from(0, MAX_BYTES, bytes)?;
    Some(Line::Gen {
        what,
        ranks: ranks as u32,
        bytes,
    })
}

// `certify KIND NAME`.
fn read_certify(
    alloc: Global,
    plain: PlainWords<'_>,
    given: OptionValues,
) -> Result<Line, LineFault>
    ensures line { IfOk result (λ line. certify_of (listed plain.entry) given.root ≡ Some (command line)) }
    ensures bad { IfErr result (λ fault. fault ≡ LineFault.Bad → certify_of (listed plain.entry) given.root ≡ None) }
{
    let PlainWords::Two(kind, name) = plain else {
        return Err(LineFault::Bad);
    };
    let Some(what) = collective_of(kind, given.root()) else {
        return Err(LineFault::Bad);
    };
    let name = FileName::new(alloc, name)?;
    Ok(Line::Certify { what, name })
}

// `probe ROUNDS SEED`.
fn read_probe(plain: PlainWords<'_>, given: OptionValues) -> Option<Line>
    ensures { MatchOption result (probe_of (listed plain.entry) (numbers_given given) ≡ None) (λ line. probe_of (listed plain.entry) (numbers_given given) ≡ Some (command line)) }
{
    let PlainWords::Two(rounds, seed) = plain else {
        return None;
    };
    let rounds = number_from(1, u64::from(MAX_ROUNDS), rounds)?;
    let seed = value_of(seed)?;
    let params = given.params()?;
    Some(Line::Probe {
        rounds: rounds as u32,
        seed,
        params,
    })
}
