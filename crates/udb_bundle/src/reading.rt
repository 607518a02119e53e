//! A bundle that is read line by line.

ghost use Rattle.std.specs.Prelude.{◌≡◌, ◌+◌, ◌++◌, ◌∷◌, [], nat_le, string_bytes, IfOk, OnOk};
ghost use Rattle.udb_bundle.specs.Reading.{PushesLine, PushesText, PushesWord, Reaches, TakesLine, advanced, begun, begun_entry, begun_image, begun_proof, begun_shipped, closed, headed, heading_words, is_between, is_full, start, title_of, with_row};
ghost use Rattle.udb_bundle.specs.Titles.{HasTitles};

use crate::bundle::{Bundle, Rows, Words};
use crate::faults::LineFault;
use crate::headings::{PartKind, heading_words, name_of, part_kind};
use crate::numbers::{Count, count_within, word};
use std::alloc::{AllocError, Global};
use std::collections::BTreeSet;
use std::mem;
use udb_base::{Chars, Kind, Lines, Name, NoMemory, Row, TEXT_LIMIT, Text, kind_word, text};

/// The most words of an image.
const IMAGE_LIMIT: u32 = 16_384;

/// The kinds and names of the rows so far, each as `kind name`.
pub type Titles = BTreeSet<String>;

/// The part whose lines are read.
#[derive(Drop)]
pub enum Open {
    Nothing,
    Entry {
        kind: Kind,
        name: Name,
        text: Chars,
        left: u32,
    },
    Image {
        words: Words,
        left: u32,
    },
    Proof {
        lines: Lines,
        count: Count,
    },
}

/// What the lines so far hold.
#[derive(Drop)]
pub struct Reading {
    pub bundle: Bundle,
    pub has_image: bool,
    pub has_proof: bool,
    pub part: Open,
}

// The title of a row.
fn title_of(alloc: Global, kind: Kind, name: &str) -> Result<String, NoMemory>
    ensures { IfOk result (λ t. string_bytes t ≡ title_of kind name.now) }
{
    let mut title = String::from_str(alloc, kind_word(kind))?;
    title.push_str(" ")?;
    title.push_str(name)?;
    Ok(title)
}

// Whether a text, one more line and the line feeds of the lines that are left are within the limit.
fn fits(text: usize, line: usize, left: u32) -> bool
    ensures { result ≡ nat_le (text + line + left) 65536 }
{
    text <= TEXT_LIMIT && line <= TEXT_LIMIT && text + line + left as usize <= TEXT_LIMIT
}

impl Open {
    // Whether the part wants no more lines.
    fn is_full(&self) -> bool
        ensures { result ≡ is_full self.now }
    {
        match self {
            Open::Nothing => false,
            Open::Entry { left, .. } => *left == 0,
            Open::Image { left, .. } => *left == 0,
            Open::Proof { lines, count } => count.is(lines.len()),
        }
    }
}

// The text of a row that was read: it is UTF-8 and within the limit, so the one refusal is want of
// memory.
fn row_text(alloc: Global, lines: &Chars) -> Result<Text, NoMemory>
    ensures { IfOk result (λ t. t ≡ lines.now) }
{
    match text(alloc, lines.as_bytes()) {
        Ok(text) => Ok(text),
        Err(_) => Err(AllocError),
    }
}

// One more row, and its title.
fn push_row(
    alloc: Global,
    rows: &mut Rows,
    titles: &mut Titles,
    kind: Kind,
    name: Name,
    lines: &Chars,
) -> Result<(), NoMemory>
    requires { HasTitles titles.old rows.old }
    ensures rows { OnOk result (rows.new ≡ with_row rows.old kind name lines.now) }
    ensures titles { OnOk result (HasTitles titles.new rows.new) }
{
    titles.insert(title_of(alloc, kind, name.as_str())?)?;
    let text = row_text(alloc, lines)?;
    rows.push(Row { kind, name, text })
}

// One more line of a row's text.
fn push_text_line(text: &mut Chars, left: &mut u32, line: &str) -> Result<(), LineFault>
    ensures { PushesText text.old left.old line.now result text.new left.new }
{
    if !fits(text.len(), line.len(), *left) {
        return Err(LineFault::Bad);
    }
    if text.push_str(line).is_err() || text.push_str("\n").is_err() {
        return Err(LineFault::Memory);
    }
    *left = left.saturating_sub(1);
    Ok(())
}

// One more word of the image.
fn push_word(words: &mut Words, left: &mut u32, line: &str) -> Result<(), LineFault>
    ensures { PushesWord words.old left.old line.now result words.new left.new }
{
    let Some(word) = word(line) else {
        return Err(LineFault::Bad);
    };
    if words.push(word).is_err() {
        return Err(LineFault::Memory);
    }
    *left = left.saturating_sub(1);
    Ok(())
}

// One more line of the proof.
fn push_line(alloc: Global, lines: &mut Lines, line: &str) -> Result<(), LineFault>
    ensures { PushesLine lines.old line.now result lines.new }
{
    let Ok(line) = Chars::of(alloc, line) else {
        return Err(LineFault::Memory);
    };
    if lines.push(line).is_err() {
        return Err(LineFault::Memory);
    }
    Ok(())
}

impl Reading {
    /// Nothing is read yet.
    pub fn new(alloc: Global) -> Reading
        ensures { result ≡ start }
    {
        Reading {
            bundle: Bundle {
                rows: Rows::new(alloc),
                image: Words::new(alloc),
                proof: Lines::new(alloc),
                shipped: false,
            },
            has_image: false,
            has_proof: false,
            part: Open::Nothing,
        }
    }

    // Behind the heading of a row.
    fn begin_row(
        &mut self,
        alloc: Global,
        titles: &Titles,
        kind: Kind,
        name: &str,
        digits: &str,
    ) -> Result<(), LineFault>
        requires { HasTitles titles.now self.old.bundle.rows }
        ensures { Reaches (begun_entry self.old kind name.now digits.now) result self.new }
    {
        let title = match title_of(alloc, kind, name) {
            Ok(title) => title,
            Err(_) => return Err(LineFault::Memory),
        };
        if titles.contains(title.as_str()) {
            return Err(LineFault::Bad);
        }
        let Some(left) = count_within(TEXT_LIMIT as u32, digits) else {
            return Err(LineFault::Bad);
        };
        match name_of(alloc, name) {
            Ok(Some(name)) => {
                let text = Chars::new(alloc);
                self.part = Open::Entry {
                    kind,
                    name,
                    text,
                    left,
                };
                Ok(())
            }
            Ok(None) => Err(LineFault::Bad),
            Err(_) => Err(LineFault::Memory),
        }
    }

    // Behind the word for the shipped rows.
    fn begin_shipped(&mut self, digits: &str) -> Result<(), LineFault>
        ensures { Reaches (begun_shipped self.old digits.now) result self.new }
    {
        if self.bundle.shipped || count_within(0, digits).is_none() {
            return Err(LineFault::Bad);
        }
        self.bundle.shipped = true;
        Ok(())
    }

    // Behind the heading of the image.
    fn begin_image(&mut self, alloc: Global, digits: &str) -> Result<(), LineFault>
        ensures { Reaches (begun_image self.old digits.now) result self.new }
    {
        if self.has_image {
            return Err(LineFault::Bad);
        }
        match count_within(IMAGE_LIMIT, digits) {
            Some(left) => {
                let words = Words::new(alloc);
                self.part = Open::Image { words, left };
                Ok(())
            }
            None => Err(LineFault::Bad),
        }
    }

    // Behind the heading of the proof.
    fn begin_proof(&mut self, alloc: Global, digits: &str) -> Result<(), LineFault>
        ensures { Reaches (begun_proof self.old digits.now) result self.new }
    {
        if self.has_proof {
            return Err(LineFault::Bad);
        }
        match Count::of(alloc, digits) {
            Ok(Some(count)) => {
                let lines = Lines::new(alloc);
                self.part = Open::Proof { lines, count };
                Ok(())
            }
            Ok(None) => Err(LineFault::Bad),
            Err(_) => Err(LineFault::Memory),
        }
    }

    // Behind a part's heading.
    fn begin(
        &mut self,
        alloc: Global,
        titles: &Titles,
        part: PartKind,
        name: &str,
        digits: &str,
    ) -> Result<(), LineFault>
        requires { HasTitles titles.now self.old.bundle.rows }
        ensures { Reaches (begun self.old part name.now digits.now) result self.new }
    {
        match part {
            PartKind::Entry(kind) => self.begin_row(alloc, titles, kind, name, digits),
            _ if name != "all" => Err(LineFault::Bad),
            PartKind::Shipped => self.begin_shipped(digits),
            PartKind::Image => self.begin_image(alloc, digits),
            PartKind::Proof => self.begin_proof(alloc, digits),
        }
    }

    // Behind a line between the parts.
    fn take_heading(&mut self, alloc: Global, titles: &Titles, line: &str) -> Result<(), LineFault>
        requires { HasTitles titles.now self.old.bundle.rows }
        ensures { Reaches (headed self.old (heading_words line.now)) result self.new }
    {
        let Some((kind, name, digits)) = heading_words(line) else {
            return Err(LineFault::Bad);
        };
        match part_kind(kind) {
            Some(part) => self.begin(alloc, titles, part, name, digits),
            None => Err(LineFault::Bad),
        }
    }

    // Behind one more line of the part that is open.
    fn take_part_line(
        &mut self,
        alloc: Global,
        titles: &Titles,
        line: &str,
    ) -> Result<(), LineFault>
        requires { HasTitles titles.now self.old.bundle.rows }
        ensures { Reaches (advanced self.old.part self.old line.now) result self.new }
    {
        match &mut self.part {
            Open::Nothing => self.take_heading(alloc, titles, line),
            Open::Entry { text, left, .. } => push_text_line(text, left, line),
            Open::Image { words, left } => push_word(words, left, line),
            Open::Proof { lines, .. } => push_line(alloc, lines, line),
        }
    }

    // Puts a part that wants no more lines into the bundle.
    fn close(&mut self, alloc: Global, titles: &mut Titles) -> Result<(), NoMemory>
        requires { HasTitles titles.old self.old.bundle.rows }
        ensures closed { OnOk result (self.new ≡ closed self.old) }
        ensures titles { OnOk result (HasTitles titles.new self.new.bundle.rows) }
    {
        if !self.part.is_full() {
            return Ok(());
        }
        match mem::replace(&mut self.part, Open::Nothing) {
            Open::Nothing => Ok(()),
            Open::Entry {
                kind,
                name,
                text,
                ..
            } => push_row(alloc, &mut self.bundle.rows, titles, kind, name, &text),
            Open::Image { words, .. } => {
                self.bundle.image = words;
                self.has_image = true;
                Ok(())
            }
            Open::Proof { lines, .. } => {
                self.bundle.proof = lines;
                self.has_proof = true;
                Ok(())
            }
        }
    }

    /// Takes one more line. Where it is bad, or memory lacks, the reading is given up.
    pub fn take_line(
        &mut self,
        alloc: Global,
        titles: &mut Titles,
        line: &[u8],
    ) -> Result<(), LineFault>
        requires { HasTitles titles.old self.old.bundle.rows }
        ensures line { TakesLine self.old line.now result self.new }
        ensures titles { OnOk result (HasTitles titles.new self.new.bundle.rows) }
    {
        let Ok(text) = std::str::from_utf8(line) else {
            return Err(LineFault::Bad);
        };
        self.take_part_line(alloc, titles, text)?;
        match self.close(alloc, titles) {
            Ok(()) => Ok(()),
            Err(_) => Err(LineFault::Memory),
        }
    }

    /// Whether no part is open.
    pub fn is_between(&self) -> bool
        ensures { result ≡ is_between self.now }
    {
        matches!(self.part, Open::Nothing)
    }

    /// The bundle that was read.
    pub fn into_bundle(self) -> Bundle
        ensures { result ≡ self.bundle }
    {
        let Reading {
            bundle,
            has_image: _,
            has_proof: _,
            part: _,
        } = self;
        bundle
    }
}
