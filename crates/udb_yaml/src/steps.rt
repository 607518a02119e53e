//! One more line.

ghost use Rattle.std.specs.Prelude.{◌≡◌, ◌+◌, ◌≤◌, ◌<◌, ◌∷◌, ◌++◌, [], suc, length, take, drop, IfOk, Some, None, ◌||◌};
ghost use Rattle.yaml_spec.specs.Line as line;
ghost use Rattle.yaml_spec.specs.Spells as spells;
ghost use Rattle.yaml_spec.specs.Spells.{at};
ghost use Rattle.yaml_spec.specs.Machine as spec;
ghost use Rattle.yaml_spec.specs.Reading as reading;
ghost use Rattle.udb_yaml.specs.Places.{CanCut, Shows};
ghost use Rattle.udb_yaml.specs.Steps.{kept_count, bound, Reaches, reader_of, is_start};
ghost use Rattle.udb_yaml.specs.Clauses.{frame_tree, Closes, OpensPart, BeginsUnder, StepsNext, StepsOn};
ghost use Rattle.udb_yaml.specs.Clauses.{ReachesUnlessSkipped, ReachesBlockRow, ReachesRow, ReachesNext};

use crate::bytes;
use crate::flow::{is_new, whole};
use crate::frames::OpenFrame;
use crate::keys::sees;
use crate::nodes::{begin, behind, mark, right_of};
use crate::rows::{block_tree, with_row};
use std::alloc::Global;
use udb_base::{Many, NoMemory};
use yaml_spec::{Block, Group, Leaf, Pair, Sight, Tree};

/// A list or map with its last part.
fn with_value(alloc: Global, frame: OpenFrame, value: Tree) -> Result<Tree, NoMemory>
    ensures { IfOk result (λ x. x ≡ frame_tree frame value) }
{
    let OpenFrame {
        group,
        column: _,
        parts,
        key,
    } = frame;
    let mut all = parts.into_pairs();
    all.push(Pair { key, value })?;
    whole(alloc, group, all)
}

/// The tree of what stands at the innermost place.
fn leaf_tree(leaf: Leaf) -> Result<Tree, NoMemory>
    ensures { IfOk result (λ x. x ≡ spec.leaf_tree leaf) }
{
    match leaf {
        Leaf::Hole => Ok(Tree::Null),
        Leaf::Done(value) => Ok(value),
        Leaf::Block(block) => block_tree(block),
    }
}

/// Closes all frames but the first ones.
pub fn close(
    alloc: Global,
    frames: &mut Many<OpenFrame>,
    keep: usize,
    leaf: Leaf,
) -> Result<Tree, NoMemory>
    requires { keep ≤ length frames.old }
    ensures { IfOk result (λ x. Closes keep frames.old frames.new leaf x) }
{
    let mut value = leaf_tree(leaf)?;
    'closing: while frames.len() > keep {
        if let Some(frame) = frames.pop() {
            value = with_value(alloc, frame, value)?;
        }
    }
    Ok(value)
}

/// How deep a mark stands; an item stands deeper than an entry at its column.
fn level(group: Group, column: usize) -> u128
    ensures { result ≡ spec.level group column }
{
    match group {
        Group::Mapped => 2 * column as u128,
        Group::Listed => 2 * column as u128 + 1,
    }
}

fn group_of(sight: &Sight) -> Group
    ensures { result ≡ spec.group_of sight.now }
{
    match sight {
        Sight::Bare(group, _) => *group,
        Sight::Before(group, _, _) => *group,
        Sight::Other => Group::Mapped,
    }
}

/// How many frames stand less deep.
fn count_less_deep(frames: &[OpenFrame], level_here: u128) -> usize
    ensures count { result ≡ kept_count level_here frames.now }
    ensures within { result ≤ length frames.now }
{
    let mut count = 0;
    'frames: for frame in frames {
        if level(frame.group, frame.column) >= level_here {
            return count;
        }
        count += 1;
    }
    count
}

/// A part behind the parts of the frame at a place, where it stands at the frame's level.
fn next(
    alloc: Global,
    frames: &mut Many<OpenFrame>,
    count: usize,
    leaf: Leaf,
    text: &str,
    sight: Sight,
    here: u128,
) -> Result<Option<Leaf>, NoMemory>
    requires within { count < length frames.old }
    requires shows { Shows text.now (reading.sees text.now) sight }
    ensures { IfOk result (λ o. StepsNext count here frames.old leaf text.now frames.new o) }
{
    let value = close(alloc, frames, right_of(count)?, leaf)?;
    match frames.pop() {
        None => Ok(None),
        Some(frame) => {
            if count >= 32 || level(frame.group, frame.column) != here {
                return Ok(None);
            }
            part(alloc, frames, 31 - count as u32, frame, value, text, sight)
        }
    }
}

/// A frame whose last part has this value, with one more part.
fn part(
    alloc: Global,
    frames: &mut Many<OpenFrame>,
    room: u32,
    frame: OpenFrame,
    value: Tree,
    text: &str,
    sight: Sight,
) -> Result<Option<Leaf>, NoMemory>
    requires { CanCut text.now sight }
    ensures { IfOk result (λ o. OpensPart room frame value text.now sight frames.old frames.new o) }
{
    match mark(sight) {
        None => Ok(None),
        Some((group, key, place)) => {
            let OpenFrame {
                group: _,
                column,
                parts,
                key: last,
            } = frame;
            let all = parts.with(alloc, Pair { key: last, value })?;
            if !is_new(group, &key, &all) {
                return Ok(None);
            }
            frames.push(OpenFrame {
                group,
                column,
                parts: all,
                key,
            })?;
            behind(alloc, room, column, text, place, frames)
        }
    }
}

/// A node below the last mark, where nothing stands there yet.
fn under(
    alloc: Global,
    frames: &mut Many<OpenFrame>,
    leaf: Leaf,
    column: usize,
    text: &str,
) -> Result<Option<Leaf>, NoMemory>
    ensures { IfOk result (λ o. BeginsUnder frames.old leaf column text.now frames.new o) }
{
    match leaf {
        Leaf::Hole => {
            let count = frames.len();
            if count > 32 {
                return Ok(None);
            }
            let least = least(frames.as_slice())?;
            begin(alloc, 32 - count as u32, least, column, text, frames)
        }
        Leaf::Done(_) => Ok(None),
        Leaf::Block(_) => Ok(None),
    }
}

/// The least column of what stands inside the last frame.
fn least(frames: &[OpenFrame]) -> Result<usize, NoMemory>
    ensures { IfOk result (λ n. n ≡ bound 0 frames.now) }
{
    let count = frames.len();
    if count == 0 {
        return Ok(0);
    }
    let last = &frames[count - 1];
    right_of(last.column)
}

/// A line that isn't skipped and stands in no block scalar.
fn add(
    alloc: Global,
    frames: &mut Many<OpenFrame>,
    leaf: Leaf,
    column: usize,
    text: &str,
) -> Result<Option<Leaf>, NoMemory>
    ensures { IfOk result (λ o. StepsOn frames.old leaf column text.now frames.new o) }
{
    let sight = sees(alloc, text)?;
    let here = level(group_of(&sight), column);
    let count = count_less_deep(frames.as_slice(), here);
    if count < frames.len() {
        next(alloc, frames, count, leaf, text, sight, here)
    } else {
        under(alloc, frames, leaf, column, text)
    }
}

/// Whether a line is blank or a comment.
fn is_skipped(content: &str) -> bool
    ensures { result ≡ (spells.is_empty content.now || line.begins 35 content.now) }
{
    content.is_empty() || bytes::begins(b'#', content.as_bytes())
}

/// What is open: the lists and maps, the outermost first, and the innermost place.
#[derive(Drop)]
pub struct State {
    pub started: bool,
    pub frames: Many<OpenFrame>,
    pub leaf: Leaf,
}

fn unless_skipped(
    alloc: Global,
    state: State,
    column: usize,
    content: &str,
) -> Result<Option<State>, NoMemory>
    ensures { IfOk result (λ o. ReachesUnlessSkipped state column content.now o) }
{
    if is_skipped(content) {
        return Ok(Some(state));
    }
    let State {
        started,
        frames,
        leaf,
    } = state;
    let mut all = frames;
    match add(alloc, &mut all, leaf, column, content)? {
        None => Ok(None),
        Some(leaf) => Ok(Some(State {
            started,
            frames: all,
            leaf,
        })),
    }
}

/// Whether a line belongs to a block scalar whose rows stand at this column or deeper.
fn is_inside(least: usize, column: usize, content: &str) -> bool
    ensures { result ≡ spells.is_inside least (at column content.now) }
{
    content.is_empty() || least <= column
}

/// A line behind the first one of a block scalar.
fn row(
    alloc: Global,
    started: bool,
    frames: Many<OpenFrame>,
    block: Block,
    column: usize,
    content: &str,
) -> Result<Option<State>, NoMemory>
    ensures { IfOk result (λ o. ReachesBlockRow started frames block column content.now o) }
{
    if is_inside(block.least, column, content) {
        return match with_row(block, column, content)? {
            None => Ok(None),
            Some(next) => Ok(Some(State {
                started,
                frames,
                leaf: Leaf::Block(next),
            })),
        };
    }
    let leaf = Leaf::Done(block_tree(block)?);
    unless_skipped(
        alloc,
        State {
            started,
            frames,
            leaf,
        },
        column,
        content,
    )
}

/// A line behind the first one of a node.
fn advance(
    alloc: Global,
    state: State,
    column: usize,
    content: &str,
) -> Result<Option<State>, NoMemory>
    ensures { IfOk result (λ o. ReachesRow state column content.now o) }
{
    let State {
        started,
        frames,
        leaf,
    } = state;
    match leaf {
        Leaf::Block(block) => row(alloc, started, frames, block, column, content),
        Leaf::Hole => unless_skipped(
            alloc,
            State {
                started,
                frames,
                leaf: Leaf::Hole,
            },
            column,
            content,
        ),
        Leaf::Done(value) => unless_skipped(
            alloc,
            State {
                started,
                frames,
                leaf: Leaf::Done(value),
            },
            column,
            content,
        ),
    }
}

/// Whether a line is three times this byte, alone at column 0.
pub fn is_document(byte: u8, column: usize, content: &[u8]) -> bool
    ensures { result ≡ spec.is_document byte (at column content.now) }
{
    column == 0
        && content.len() > 2
        && content[0] == byte
        && content[1] == byte
        && content[2] == byte
        && bytes::is_tail(&content[3..])
}

/// No lists and maps, and nothing yet.
pub fn empty(alloc: Global, started: bool) -> State
    ensures { reader_of result ≡ (started, ([], Leaf.Hole)) }
{
    State {
        started,
        frames: Many::new(alloc),
        leaf: Leaf::Hole,
    }
}

/// A line before anything stands.
fn first(
    alloc: Global,
    started: bool,
    column: usize,
    content: &str,
) -> Result<Option<State>, NoMemory>
    ensures { IfOk result (λ o. Reaches (spec.first_line started (at column content.now)) o) }
{
    if is_skipped(content) {
        return Ok(Some(empty(alloc, started)));
    }
    if is_document(b'-', column, content.as_bytes()) {
        return if started {
            Ok(None)
        } else {
            Ok(Some(empty(alloc, true)))
        };
    }
    if is_document(b'.', column, content.as_bytes()) || column != 0 {
        return Ok(None);
    }
    let mut frames = Many::new(alloc);
    match begin(alloc, 32, 0, column, content, &mut frames)? {
        None => Ok(None),
        Some(leaf) => Ok(Some(State {
            started,
            frames,
            leaf,
        })),
    }
}

/// Whether nothing stands yet.
fn is_start(state: &State) -> bool
    ensures { result ≡ is_start state.now.frames state.now.leaf }
{
    match state.leaf {
        Leaf::Hole => state.frames.is_empty(),
        Leaf::Done(_) => false,
        Leaf::Block(_) => false,
    }
}

/// What is open behind one more line, or none where no text in the profile goes on with it.
pub fn step(
    alloc: Global,
    state: State,
    column: usize,
    content: &str,
) -> Result<Option<State>, NoMemory>
    ensures { IfOk result (λ o. ReachesNext state column content.now o) }
{
    if is_start(&state) {
        first(alloc, state.started, column, content)
    } else {
        advance(alloc, state, column, content)
    }
}
