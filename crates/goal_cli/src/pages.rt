//! The output of a command, page by page: a page is made once the one before it is written, so that memory holds only
//! one.
ghost use Rattle.std.specs.Prelude.{◌≡◌, ◌++◌, ◌<◌, ◌≤◌, [], length, unwrap_or, IfOk, OnOk};

use crate::answer::Ending;
use goal_limits::NoMemory;
use goal_print::Blocks;
use sim_classes::Machine;
use sim_events::Unkept;
use sim_params::LogGops;
use sim_timeline::Lines;
use std::alloc::Global;

/// The number of bytes of a page, which go to a sink at once. The last page has the rest of the text. So a text of at
/// most this length is one page.
pub const PAGE: usize = 65_536;

/// The output of a command that is not yet written: the rest of a piece that is made, then pages, then a tail.
#[derive(Drop)]
pub struct Output<'a> {
    piece: Vec<u8>,
    // the number of bytes of the piece that were written
    done: usize,
    pages: Pages<'a>,
    tail: Vec<u8>,
    /// How the command ends once the output is written.
    pub ending: Ending,
    ghost within: { done ≤ length piece.items },
}

/// The pages that are not yet made.
#[derive(Drop)]
pub enum Pages<'a> {
    /// There are none.
    None,
    /// The lines of the operations of a run.
    Run(Lines<'a, LogGops, Unkept>),
    /// The lines of the operations of a run on a machine.
    RunOn(Lines<'a, Machine, Unkept>),
    /// The blocks of a schedule's canonical text.
    Blocks(Blocks<'a>),
}

/// An output that was made whole.
#[derive(Drop)]
pub struct Whole {
    /// Its bytes.
    pub bytes: Vec<u8>,
    /// How the command ends.
    pub ending: Ending,
}

impl Whole {
    ghost use Rattle.goal_cli.specs.Pages.{made_of, text_of};

    /// Returns the same as an output.
    pub fn into_output<'a>(self, alloc: Global) -> Output<'a>
        ensures text { text_of result ≡ self.bytes.items }
        ensures made { made_of result ≡ self.bytes.items }
        ensures ending { result.ending ≡ self.ending }
    {
        Output::new(self.bytes, Pages::None, Vec::new(alloc), self.ending)
    }
}

impl<'a> Pages<'a> {
    ghost use Rattle.goal_cli.specs.Pages.{left_of};

    /// Returns the lines of a run, if there are any.
    pub fn of_run(lines: Option<Lines<'a, LogGops, Unkept>>) -> Pages<'a>
        ensures { left_of result ≡ unwrap_or lines.entry [] }
    {
        match lines {
            Some(lines) => Pages::Run(lines),
            None => Pages::None,
        }
    }

    /// Returns the lines of a run on a machine, if there are any.
    pub fn of_run_on(lines: Option<Lines<'a, Machine, Unkept>>) -> Pages<'a>
        ensures { left_of result ≡ unwrap_or lines.entry [] }
    {
        match lines {
            Some(lines) => Pages::RunOn(lines),
            None => Pages::None,
        }
    }

    // Returns the next page, which is empty if none is left.
    fn next_page(&mut self, alloc: Global) -> Result<Vec<u8>, NoMemory>
        ensures page { IfOk result (λ page. left_of self.old ≡ page.items ++ left_of self.new) }
        ensures end { IfOk result (λ page. page.items ≡ [] → left_of self.old ≡ []) }
    {
        match self {
            Pages::None => Ok(Vec::new(alloc)),
            Pages::Run(lines) => lines.next_page(alloc),
            Pages::RunOn(lines) => lines.next_page(alloc),
            Pages::Blocks(blocks) => blocks.next_page(alloc),
        }
    }
}

impl<'a> Output<'a> {
    ghost use Rattle.goal_cli.specs.Pages.{left_of, made_of, behind, text_of};

    /// Creates an output of a head, pages and a tail.
    pub fn new(head: Vec<u8>, pages: Pages<'a>, tail: Vec<u8>, ending: Ending) -> Output<'a>
        ensures text { text_of result ≡ head.items ++ (left_of pages.entry ++ tail.items) }
        ensures made { made_of result ≡ head.items }
        ensures ending { result.ending ≡ ending }
    {
        Output {
            piece: head,
            done: 0,
            pages,
            tail,
            ending,
        }
    }

    /// Returns the bytes that are made and not yet written.
    pub fn made(&self) -> &[u8]
        ensures { result.now ≡ made_of self.now }
    {
        &self.piece[self.done..]
    }

    // Makes the next piece, which is empty if none is left, after all of the piece before was written.
    fn next_piece(&mut self, alloc: Global) -> Result<(), NoMemory>
        requires used { made_of self.old ≡ [] }
        ensures text { OnOk result (text_of self.new ≡ text_of self.old) }
        ensures behind { OnOk result (behind self.old ≡ made_of self.new ++ behind self.new) }
        ensures end { OnOk result (made_of self.new ≡ [] → behind self.old ≡ []) }
    {
        let page = self.pages.next_page(alloc)?;
        if page.is_empty() {
            self.piece = std::mem::replace(&mut self.tail, Vec::new(alloc));
        } else {
            self.piece = page;
        }
        self.done = 0;
        Ok(())
    }

    /// Fills a page with what is not yet written: a full page, or the last one. `Err` means out of memory.
    pub fn fill(&mut self, alloc: Global, page: &mut Vec<u8>) -> Result<(), NoMemory>
        ensures page { OnOk result (text_of self.old ≡ page.new.items ++ text_of self.new) }
        ensures last { OnOk result (length page.new.items < PAGE → text_of self.new ≡ []) }
    {
        page.clear();
        'pieces: loop {
            let made = self.made();
            let count = made.len().min(PAGE - page.len());
            page.extend_from_slice(&made[..count])?;
            self.done += count;
            if page.len() == PAGE {
                return Ok(());
            }
            self.next_piece(alloc)?;
            if self.made().is_empty() {
                return Ok(());
            }
        }
    }
}
