// A book of entries under a lock, to which one thread or two add.
ghost use Rattle.std.specs.Prelude.{◌≡◌, ◌<◌, ◌^◌, ◌++◌, ◌∷◌, [], All, None, IfOk, OnOk, OnErr};
ghost use Rattle.pool_ledger.specs.Workers.{Continues, entries_of};

use crate::tests::words::{finds, put_number};
use pool_ledger::{Entry, Event};
use std::alloc::{AllocError, Global};
use std::marker::{Brand, Model};
use std::sync::Wait;
use std::test::*;
use std::thread::{Threads, join};
use turn_lock::{Kept, Pass, TurnLock};

/// A list of entries, all by workers 0 and 1.
#[derive(Drop)]
struct Book {
    entries: Vec<Entry>,
}

impl Model for Book {
    ghost use Rattle.std.specs.Prelude.{List};
    ghost use Rattle.pool_ledger.specs.declared.entry.Entry.{Entry};

    ghost Value = { List Entry };

    ghost view = { λ book. book.entries.items };
}

impl Kept<Brand> for Book {
    ghost history = { λ book. book };

    ghost fact = { λ book. All (λ entry. entry.worker < 2) book };
}

impl Book {
    // With room for so many entries, so that a thread which adds them doesn't fail alone.
    fn new(alloc: Global, room: usize) -> Result<Book, AllocError>
        ensures { IfOk result (λ book. book ≡ []) }
    {
        let entries = Vec::with_capacity(alloc, room)?;
        Ok(Book { entries })
    }

    fn entries(&self) -> &[Entry]
        ensures { result.now ≡ self.now }
    {
        self.entries.as_slice()
    }

    fn add(&mut self, entry: Entry) -> Result<(), AllocError>
        ensures ok { OnOk result (self.new ≡ self.old ++ entry ∷ []) }
        ensures err { OnErr result (self.new ≡ self.old) }
    {
        self.entries.push(entry)?;
        Ok(())
    }

    // Adds the entry if the last one is another worker's. Worker 0 begins.
    fn add_behind_other(&mut self, entry: Entry) -> Result<bool, AllocError>
        ensures more { Continues entry.worker self.old self.new }
        ensures meets { entry.worker < 2 → All (λ e. e.worker < 2) self.old
            → All (λ e. e.worker < 2) self.new }
    {
        let last = self.entries().last().map_or(1, |last| last.worker);
        if last == entry.worker {
            return Ok(false);
        }
        self.add(entry)?;
        Ok(true)
    }
}

fn begin(worker: u32, task: u32) -> Entry
    ensures { result.worker ≡ worker }
{
    Entry {
        worker,
        event: Event::Begin { task },
    }
}

// Adds these entries, each in a turn of its own.
fn add_all<R: Wait>(
    rt: &R,
    lock: &TurnLock<Book, Brand>,
    mut pass: Pass<Brand>,
    entries: &[Entry],
) -> Result<Pass<Brand>, AllocError>
    requires lock { pass.lock ≡ lock.now }
    requires free { pass.base ≡ None }
    requires known { pass.number < 2 }
    requires own { All (λ entry. entry.worker ≡ pass.number) entries.now }
    ensures same { IfOk result (λ after. (after.lock ≡ pass.lock) × (after.base ≡ None)
        × (after.speaks ≡ pass.speaks) × (after.spare ≡ pass.spare)) }
    ensures entries { IfOk result (λ after. entries_of pass.number after.seen
        ≡ entries_of pass.number pass.seen ++ entries.now) }
{
    for entry in entries {
        let mut book = lock.take(rt, &mut pass);
        let outcome = book.add(*entry);
        lock.give(&mut pass, book);
        outcome?;
    }
    Ok(pass)
}

// Closes the lock of two passes that stand for all.
fn close_both(lock: TurnLock<Book, Brand>, mut one: Pass<Brand>, other: Pass<Brand>) -> Book
    requires lock { (one.lock ≡ lock) × (other.lock ≡ lock) }
    requires free { (one.base ≡ None) × (other.base ≡ None) }
    requires one { (one.speaks ≡ 0 ∷ []) × (one.spare ≡ 2 ^ 32) }
    requires other { (other.speaks ≡ 1 ∷ []) × (other.spare ≡ 2) }
    ensures meets { All (λ entry. entry.worker < 2) result }
    ensures one { entries_of 0 result ≡ entries_of 0 one.seen }
    ensures other { entries_of 1 result ≡ entries_of 1 other.seen }
{
    lock.join(&mut one, other);
    lock.close(one)
}

// Two threads add their entries to one book. It has of each worker just these, in their order.
fn add_both<R: Threads + Wait + Sync>(
    rt: &R,
    alloc: Global,
    first: &[Entry],
    second: &[Entry],
) -> Result<Book, AllocError>
    requires first { All (λ entry. entry.worker ≡ 0) first.now }
    requires second { All (λ entry. entry.worker ≡ 1) second.now }
    ensures first { IfOk result (λ book. entries_of 0 book ≡ first.now) }
    ensures second { IfOk result (λ book. entries_of 1 book ≡ second.now) }
{
    let (lock, mut one) = TurnLock::<Book, Brand>::new(alloc, Book::new(alloc, 8)?)?;
    let other = lock.split(&mut one)?;
    let shared = &lock;
    let (one, other) = join(
        rt,
        move ||
            requires { (one.lock ≡ shared.now) × (one.base ≡ None) × (one.number < 2)
                × All (λ entry. entry.worker ≡ one.number) first.now }
        { add_all(rt, shared, one, first) },
        move ||
            requires { (other.lock ≡ shared.now) × (other.base ≡ None) × (other.number < 2)
                × All (λ entry. entry.worker ≡ other.number) second.now }
        { add_all(rt, shared, other, second) },
    );
    let one = one?;
    let other = other?;
    Ok(close_both(lock, one, other))
}

// Takes turns until the last entry is another worker's, and then adds one behind it.
fn add_behind_other<R: Wait>(
    rt: &R,
    lock: &TurnLock<Book, Brand>,
    pass: &mut Pass<Brand>,
    task: u32,
) -> Result<(), AllocError>
    requires lock { pass.old.lock ≡ lock.now }
    requires free { pass.old.base ≡ None }
    requires known { pass.old.number < 2 }
    ensures { (pass.new.lock ≡ pass.old.lock) × (pass.new.base ≡ None)
        × (pass.new.number ≡ pass.old.number) × (pass.new.speaks ≡ pass.old.speaks)
        × (pass.new.spare ≡ pass.old.spare) }
{
    let entry = begin(pass.number(), task);
    for _ in rt.forever() {
        let mut book = lock.take(rt, pass);
        let outcome = book.add_behind_other(entry);
        lock.give(pass, book);
        if outcome? {
            return Ok(());
        }
    }
    unreachable!()
}

// Adds so many entries, each behind one of the other worker.
fn add_alternately<R: Wait>(
    rt: &R,
    lock: &TurnLock<Book, Brand>,
    mut pass: Pass<Brand>,
    count: u32,
) -> Result<Pass<Brand>, AllocError>
    requires lock { pass.lock ≡ lock.now }
    requires free { pass.base ≡ None }
    requires known { pass.number < 2 }
    ensures same { IfOk result (λ after. (after.lock ≡ pass.lock) × (after.base ≡ None)
        × (after.speaks ≡ pass.speaks) × (after.spare ≡ pass.spare)) }
{
    for task in 0..count {
        add_behind_other(rt, lock, &mut pass, task)?;
    }
    Ok(pass)
}

// The book of two threads, each of which waits for an entry of the other before each of its own.
fn alternate<R: Threads + Wait + Sync>(
    rt: &R,
    alloc: Global,
    count: u32,
) -> Result<Book, AllocError> {
    let (lock, mut one) = TurnLock::<Book, Brand>::new(
        alloc,
        Book::new(alloc, 2 * count as usize)?,
    )?;
    let other = lock.split(&mut one)?;
    let shared = &lock;
    let (one, other) = join(
        rt,
        move ||
            requires { (one.lock ≡ shared.now) × (one.base ≡ None) × (one.number < 2) }
        { add_alternately(rt, shared, one, count) },
        move ||
            requires { (other.lock ≡ shared.now) × (other.base ≡ None) × (other.number < 2) }
        { add_alternately(rt, shared, other, count) },
    );
    let one = one?;
    let other = other?;
    Ok(close_both(lock, one, other))
}

// The book's tasks, each behind its worker.
fn put_told(text: &mut String, entries: &[Entry]) -> Result<(), AllocError> {
    for entry in entries {
        put_entry(text, *entry)?;
    }
    Ok(())
}

fn put_entry(text: &mut String, entry: Entry) -> Result<(), AllocError> {
    let Event::Begin { task } = entry.event else {
        return Ok(());
    };
    put(text, " ", entry.worker)?;
    put(text, ":", task)
}

fn put(text: &mut String, mark: &str, number: u32) -> Result<(), AllocError> {
    text.push_str(mark)?;
    put_number(text, u64::from(number))
}

// Takes the book and gives it back, and tells what stood in it.
fn look<R: Wait>(
    rt: &R,
    lock: &TurnLock<Book, Brand>,
    pass: &mut Pass<Brand>,
    text: &mut String,
) -> Result<(), AllocError>
    requires lock { pass.old.lock ≡ lock.now }
    requires free { pass.old.base ≡ None }
    requires known { pass.old.number < 2 }
    ensures { (pass.new.lock ≡ pass.old.lock) × (pass.new.base ≡ None)
        × (pass.new.number ≡ pass.old.number) × (pass.new.speaks ≡ pass.old.speaks)
        × (pass.new.spare ≡ pass.old.spare) }
{
    let book = lock.take(rt, pass);
    let told = put_told(text, book.entries());
    lock.give(pass, book);
    told
}

// Takes turns with two passes, and tells what stood in the book before the last one.
fn take_turns<R: Wait>(
    rt: &R,
    lock: &TurnLock<Book, Brand>,
    one: &mut Pass<Brand>,
    other: &mut Pass<Brand>,
    text: &mut String,
) -> Result<(), AllocError>
    requires lock { (one.old.lock ≡ lock.now) × (other.old.lock ≡ lock.now) }
    requires free { (one.old.base ≡ None) × (other.old.base ≡ None) }
    requires known { (one.old.number < 2) × (other.old.number < 2) }
    ensures one { (one.new.lock ≡ one.old.lock) × (one.new.base ≡ None)
        × (one.new.speaks ≡ one.old.speaks) × (one.new.spare ≡ one.old.spare) }
    ensures other { (other.new.lock ≡ other.old.lock) × (other.new.base ≡ None)
        × (other.new.speaks ≡ other.old.speaks) × (other.new.spare ≡ other.old.spare) }
{
    add_behind_other(rt, lock, one, 7)?;
    add_behind_other(rt, lock, other, 8)?;
    look(rt, lock, one, text)?;
    text.push(';')?;
    add_behind_other(rt, lock, one, 9)
}

// What one thread finds in the book, and what stands there at the end.
fn found_alone<R: Wait>(rt: &R, alloc: Global) -> Result<String, AllocError> {
    let (lock, mut one) = TurnLock::<Book, Brand>::new(alloc, Book::new(alloc, 3)?)?;
    let mut other = lock.split(&mut one)?;
    let (first, second) = (one.number(), other.number());
    let mut text = String::new(alloc);
    take_turns(rt, &lock, &mut one, &mut other, &mut text)?;
    let book = close_both(lock, one, other);
    put_told(&mut text, book.entries())?;
    put(&mut text, ";", first)?;
    put(&mut text, " ", second)?;
    Ok(text)
}

#[test]
fn one_thread_takes_turns_with_two_passes(rt: HostRuntime) -> Result<(), Fail> {
    let found = found_alone(&rt, rt.alloc());
    finds(
        &rt,
        found,
        " 0:7 1:8; 0:7 1:8 0:9;0 1",
        "the book twice, and the numbers",
    )
}

// How many entries stand in a book to which two threads add four each.
fn count_both<R: Threads + Wait + Sync>(rt: &R, alloc: Global) -> Result<String, AllocError> {
    let first = [begin(0, 2), begin(0, 4), begin(0, 6), begin(0, 8)];
    let second = [begin(1, 1), begin(1, 3), begin(1, 5), begin(1, 7)];
    let book = add_both(rt, alloc, &first, &second)?;
    text_of(alloc, book.entries().len() as u64)
}

fn text_of(alloc: Global, number: u64) -> Result<String, AllocError> {
    let mut text = String::new(alloc);
    put_number(&mut text, number)?;
    Ok(text)
}

#[test]
fn two_threads_keep_their_orders(rt: HostRuntime) -> Result<(), Fail> {
    finds(&rt, count_both(&rt, rt.alloc()), "8", "entries")
}

// How many entries stand in a book to which two threads add by turns, up to the first that isn't in its place.
fn count_in_turn<R: Threads + Wait + Sync>(rt: &R, alloc: Global) -> Result<String, AllocError> {
    let book = alternate(rt, alloc, 100)?;
    text_of(alloc, u64::from(in_turn(book.entries())))
}

fn in_turn(entries: &[Entry]) -> u32 {
    let mut at = 0u32;
    for entry in entries {
        if *entry != begin(at % 2, at / 2) {
            return at;
        }
        at = at.wrapping_add(1);
    }
    at
}

#[test]
fn two_threads_change_hands(rt: HostRuntime) -> Result<(), Fail> {
    finds(
        &rt,
        count_in_turn(&rt, rt.alloc()),
        "200",
        "entries in turn",
    )
}
