// Marks of identifiers: a bit for each identifier modulo 512, in eight words. An identifier whose mark is not set is none of those that set theirs; two
// that share a mark may differ.
#![tactic(auto)]

ghost use Rattle.std.specs.Prelude.{◌≡◌};
ghost use Rattle.marks.specs.Marks.{word_of, count_in, set_in, put_in, is_marked, marks_with, twice_in, with_four, told_of};

use remote::Pendings;
use timed::Pending;

// What the marks tell. `clash`: one was set twice; `marked`: that of the identifier that was asked for is set.
#[derive(Clone, Copy)]
pub struct Marked {
    pub clash: bool,
    pub marked: bool,
}

// The word that has the mark of an identifier,
pub fn word_of(identifier: u16) -> usize
    ensures { result ≡ word_of identifier }
{
    (identifier / 64 % 8) as usize
}

// how often it is set in that word, 0 or 1,
pub fn count_in(word: u64, identifier: u16) -> u64
    ensures { result ≡ count_in word identifier }
{
    let k = (identifier % 64) as u64;
    (word >> k) % 2
}

// and that word with it.
pub fn put_in(word: u64, identifier: u16) -> u64
    ensures { result ≡ put_in word identifier }
{
    let k = (identifier % 64) as usize;
    word | bits::bit(k)
}

// Whether it is set in that word.
fn set_in(word: u64, identifier: u16) -> bool
    ensures { result ≡ set_in word identifier }
{
    count_in(word, identifier) == 1
}

// Whether the mark of an identifier is set.
fn is_marked(marks: &[u64; 8], identifier: u16) -> bool
    ensures { result ≡ is_marked marks.now identifier }
{
    set_in(marks[word_of(identifier)], identifier)
}

// Sets the mark of a request that waits, and tells whether it was set before.
fn mark(marks: &mut [u64; 8], p: Pending) -> bool
    ensures { (result ≡ twice_in marks.old p) × (marks.new ≡ marks_with marks.old p) }
{
    if p.wait == 1 {
        let identifier = p.identifier;
        let w = word_of(identifier);
        let word = marks[w];
        marks[w] = put_in(word, identifier);
        return set_in(word, identifier);
    }
    false
}

// What the marks tell when the station's four requests have set theirs too. Mostly none of the four waits, and none is set.
pub fn told(clash: bool, marks: [u64; 8], p: Pendings, identifier: u16) -> Marked
    ensures { result ≡ told_of (with_four (clash, marks) p) identifier }
{
    if holding::four_idle(p) {
        let marked = is_marked(&marks, identifier);
        return Marked { clash, marked };
    }
    let mut all = marks;
    let activation = mark(&mut all, p.activation);
    let deactivation = mark(&mut all, p.deactivation);
    let interrogation = mark(&mut all, p.interrogation);
    let check = mark(&mut all, p.check);
    Marked {
        clash: clash | activation | deactivation | interrogation | check,
        marked: is_marked(&all, identifier),
    }
}
