// What ways preserve and generate, of the bits of a frame.
ghost use Rattle.std.specs.Prelude.{◌≡◌, ◌≢◌, ◌<◌, ◌&&◌, ◌||◌, ℕ, not, IfOk, length, slice_index};
ghost use Rattle.bit_rows.specs.Words.{has_bit};
ghost use Rattle.flow_graph.specs.Paths.{IsEdge, Transfer};
ghost use Rattle.flow_graph.specs.declared.edge.Edge.TheVariants.{Step};
ghost use Rattle.summary_equations.specs.Equations.{Entered};
ghost use Rattle.flow_bounds.specs.Clauses.{shape_in};
ghost use Rattle.flow_bounds.specs.code.Exact.{AreBranchWords, AreWayWords, AreWordsAt, IsBroughtWord, IsExact, IsHungWord, IsThroughWord};
ghost use Rattle.flow_bounds.specs.code.Frames.{IsFrame};
ghost use Rattle.flow_regions.specs.code.Ways.{AreWays, IsTree, point_in, procedure_in};

use crate::OutOfMemory;
use crate::frame::Frame;
use crate::tables::blank_words;
use crate::words::{both_word, either_word};
use flow_regions::{Branch, Hang, Hop, Way, number_at};
use std::alloc::Global;

/// By way the bits that it preserves, and those that it generates.
#[derive(Drop)]
pub(crate) struct WayWords {
    pub kept: Vec<u64>,
    pub made: Vec<u64>,
}

// The word of a number, if there is one.
fn word_at(words: &[u64], number: u32) -> u64
    ensures { result ≡ slice_index words.now number }
{
    match words.get(number as usize) {
        Some(word) => *word,
        None => 0,
    }
}

// The point of the way of a number, if there is one.
fn point_at(ways: &[Way], number: u32) -> u32
    ensures { result ≡ point_in ways.now number }
{
    match ways.get(number as usize) {
        Some(way) => way.point,
        None => 0,
    }
}

// What is preserved and generated behind a step from the point of a way.
fn stepped(frame: &Frame<'_>, ways: &[Way], words: &WayWords, before: u32, to: u32) -> (u64, u64)
    requires frame { IsFrame frame.now }
    requires there { IsEdge (shape_in frame.now) (Step (point_in ways.now before) to) }
    ensures kept { (transfer : Transfer) (bit : ℕ) → bit < 64 → IsExact frame.now transfer bit → has_bit result.0 bit
        ≡ (has_bit (slice_index words.now.kept.items before) bit && not (transfer.kill (point_in ways.now before) to)) }
    ensures made { (transfer : Transfer) (bit : ℕ) → bit < 64 → IsExact frame.now transfer bit → has_bit result.1 bit
        ≡ (transfer.gen (point_in ways.now before) to
        || (has_bit (slice_index words.now.made.items before) bit && not (transfer.kill (point_in ways.now before) to))) }
{
    let from = point_at(ways, before);
    let (preserved, generated) = frame.step(from, to);
    let kept = both_word(word_at(words.kept.as_slice(), before), preserved);
    let made = both_word(word_at(words.made.as_slice(), before), preserved);
    (kept, either_word(generated, made))
}

// What is preserved and generated behind a call, of a procedure to whose exit a way leads.
fn passed(words: &WayWords, before: u32, exit: u32) -> (u64, u64)
    ensures kept { (bit : ℕ) → has_bit result.0 bit
        ≡ (has_bit (slice_index words.now.kept.items before) bit && has_bit (slice_index words.now.kept.items exit) bit) }
    ensures made { (bit : ℕ) → has_bit result.1 bit ≡ (has_bit (slice_index words.now.made.items exit) bit
        || (has_bit (slice_index words.now.made.items before) bit && has_bit (slice_index words.now.kept.items exit) bit)) }
{
    let through = word_at(words.kept.as_slice(), exit);
    let kept = both_word(word_at(words.kept.as_slice(), before), through);
    let made = both_word(word_at(words.made.as_slice(), before), through);
    (
        kept,
        either_word(word_at(words.made.as_slice(), exit), made),
    )
}

// The words of a way, by those of the ways before it: the bits that are preserved, and those that are generated.
fn word_of(frame: &Frame<'_>, ways: &[Way], words: &WayWords, number: usize) -> (u64, u64)
    requires frame { IsFrame frame.now }
    requires ways { AreWays frame.now.links.now ways.now }
    requires there { number < length ways.now }
    requires before { AreWayWords frame.now ways.now number words.now.kept.items words.now.made.items }
    ensures { AreWordsAt frame.now (point_in ways.now number) result.0 result.1 }
{
    let way = ways[number];
    match way.hop {
        Hop::Begins => (u64::MAX, 0),
        Hop::Steps { before } => stepped(frame, ways, words, before, way.point),
        Hop::Passes { before, exit } => passed(words, before, exit),
    }
}

/// What ways preserve and generate. Fails only where memory runs out.
pub(crate) fn way_words(
    alloc: Global,
    frame: &Frame<'_>,
    ways: &[Way],
) -> Result<WayWords, OutOfMemory>
    requires frame { IsFrame frame.now }
    requires ways { AreWays frame.now.links.now ways.now }
    ensures { IfOk result (λ words. AreWayWords frame.now ways.now (length ways.now) words.kept.items words.made.items) }
{
    let mut words = WayWords {
        kept: Vec::with_capacity(alloc, ways.len())?,
        made: Vec::with_capacity(alloc, ways.len())?,
    };
    for number in 0..ways.len() {
        let (kept, made) = word_of(frame, ways, &words, number);
        words.kept.push(kept)?;
        words.made.push(made)?;
    }
    Ok(words)
}

// The bits that a call brings, at the point of a way in the procedure of a branch.
fn called(words: &WayWords, branches: &[u64], caller: u32, way: u32) -> u64
    ensures { (bit : ℕ) → has_bit result bit ≡ (has_bit (slice_index words.now.made.items way) bit
        || (has_bit (slice_index branches.now caller) bit && has_bit (slice_index words.now.kept.items way) bit)) }
{
    let kept = both_word(
        word_at(branches, caller),
        word_at(words.kept.as_slice(), way),
    );
    either_word(word_at(words.made.as_slice(), way), kept)
}

// The bits that are brought to a branch, by those of the branches before it.
fn brought_of(
    frame: &Frame<'_>,
    ways: &[Way],
    tree: &[Branch],
    words: &WayWords,
    branches: &[u64],
    number: usize,
) -> u64
    requires frame { IsFrame frame.now }
    requires ways { AreWays frame.now.links.now ways.now }
    requires tree { IsTree frame.now.links.now ways.now tree.now }
    requires there { number < length tree.now }
    requires words { AreWayWords frame.now ways.now (length ways.now) words.now.kept.items words.now.made.items }
    requires before { AreBranchWords frame.now tree.now number branches.now }
    ensures { IsBroughtWord frame.now (procedure_in tree.now number) result }
{
    let branch = tree[number];
    match branch.hang {
        Hang::Root => frame.boundary,
        Hang::Call { caller, way } => called(words, branches, caller, way),
    }
}

// The bits that are brought to each branch.
fn branch_words(
    alloc: Global,
    frame: &Frame<'_>,
    ways: &[Way],
    tree: &[Branch],
    words: &WayWords,
) -> Result<Vec<u64>, OutOfMemory>
    requires frame { IsFrame frame.now }
    requires ways { AreWays frame.now.links.now ways.now }
    requires tree { IsTree frame.now.links.now ways.now tree.now }
    requires words { AreWayWords frame.now ways.now (length ways.now) words.now.kept.items words.now.made.items }
    ensures { IfOk result (λ branches. AreBranchWords frame.now tree.now (length tree.now) branches.items) }
{
    let mut branches = Vec::with_capacity(alloc, tree.len())?;
    for number in 0..tree.len() {
        let word = brought_of(frame, ways, tree, words, branches.as_slice(), number);
        branches.push(word)?;
    }
    Ok(branches)
}

// The bits that calls of a procedure preserve, by the way to its exit: none where there is no such way.
fn through_word(
    frame: &Frame<'_>,
    ways: &[Way],
    numbers: &[u32],
    words: &WayWords,
    procedure: u32,
) -> u64
    requires frame { IsFrame frame.now }
    requires there { procedure < (shape_in frame.now).procedures }
    requires words { AreWayWords frame.now ways.now (length ways.now) words.now.kept.items words.now.made.items }
    ensures { IsThroughWord frame.now procedure result }
{
    let exit = frame.links.exit(procedure);
    let way = number_at(numbers, exit);
    if way as usize >= ways.len() || point_at(ways, way) != exit {
        return 0;
    }
    word_at(words.kept.as_slice(), way)
}

/// By procedure the bits that its calls preserve. Fails only where memory runs out.
pub(crate) fn through_words(
    alloc: Global,
    frame: &Frame<'_>,
    ways: &[Way],
    numbers: &[u32],
    words: &WayWords,
) -> Result<Vec<u64>, OutOfMemory>
    requires frame { IsFrame frame.now }
    requires words { AreWayWords frame.now ways.now (length ways.now) words.now.kept.items words.now.made.items }
    ensures count { IfOk result (λ through. length through.items ≡ (shape_in frame.now).procedures) }
    ensures each { IfOk result (λ through. (p : ℕ) → p < (shape_in frame.now).procedures → IsThroughWord frame.now p (slice_index through.items p)) }
{
    let mut through = Vec::with_capacity(alloc, frame.links.procedures() as usize)?;
    for procedure in 0..frame.links.procedures() {
        through.push(through_word(frame, ways, numbers, words, procedure))?;
    }
    Ok(through)
}

// Puts a word at a place.
fn put_word(words: &mut [u64], place: u32, word: u64)
    requires { place < length words.old }
    ensures count { length words.new ≡ length words.old }
    ensures here { slice_index words.new place ≡ word }
    ensures others { (x : ℕ) → x ≢ place → slice_index words.new x ≡ slice_index words.old x }
{
    words[place as usize] = word;
}

// Puts the word of a branch to its procedure.
fn put_hung(frame: &Frame<'_>, hung: &mut [u64], procedure: u32, word: u64)
    requires entered { Entered (shape_in frame.now) procedure }
    requires word { IsBroughtWord frame.now procedure word }
    requires before { (p : ℕ) → IsHungWord frame.now p (slice_index hung.old p) }
    ensures count { length hung.new ≡ length hung.old }
    ensures each { (p : ℕ) → IsHungWord frame.now p (slice_index hung.new p) }
{
    let _ = frame;
    if (procedure as usize) < hung.len() {
        put_word(hung, procedure, word);
    }
}

// Puts the words of all branches to their procedures.
fn put_branches(
    frame: &Frame<'_>,
    ways: &[Way],
    tree: &[Branch],
    branches: &[u64],
    hung: &mut [u64],
)
    requires frame { IsFrame frame.now }
    requires ways { AreWays frame.now.links.now ways.now }
    requires tree { IsTree frame.now.links.now ways.now tree.now }
    requires branches { AreBranchWords frame.now tree.now (length tree.now) branches.now }
    requires before { (p : ℕ) → IsHungWord frame.now p (slice_index hung.old p) }
    ensures count { length hung.new ≡ length hung.old }
    ensures each { (p : ℕ) → IsHungWord frame.now p (slice_index hung.new p) }
{
    let _ = ways;
    for number in 0..tree.len() {
        put_hung(frame, &mut *hung, tree[number].procedure, branches[number]);
    }
}

/// By procedure the bits that are brought to it by the tree of calls. Fails only where memory runs out.
pub(crate) fn hung_words(
    alloc: Global,
    frame: &Frame<'_>,
    ways: &[Way],
    tree: &[Branch],
    words: &WayWords,
) -> Result<Vec<u64>, OutOfMemory>
    requires frame { IsFrame frame.now }
    requires ways { AreWays frame.now.links.now ways.now }
    requires tree { IsTree frame.now.links.now ways.now tree.now }
    requires words { AreWayWords frame.now ways.now (length ways.now) words.now.kept.items words.now.made.items }
    ensures count { IfOk result (λ hung. length hung.items ≡ (shape_in frame.now).procedures) }
    ensures each { IfOk result (λ hung. (p : ℕ) → IsHungWord frame.now p (slice_index hung.items p)) }
{
    let branches = branch_words(alloc, frame, ways, tree, words)?;
    let mut hung = blank_words(alloc, frame.links.procedures())?;
    put_branches(frame, ways, tree, branches.as_slice(), hung.as_mut_slice());
    Ok(hung)
}
