//! Tests the post, the queue of letters that threads share: first with one thread, then with several at once.
ghost use Rattle.std.specs.Prelude.{◌≡◌, IfSome};

use crate::scenarios::{first_letters, played};
use round::Letter;
use std::alloc::{AllocError, Global};
use std::process::Abort;
use std::sync::Wait;
use std::sync::atomic::{AtomicU32, Ordering};
use std::thread;
use std::thread::Threads;
use threads::{Collector, Post, Poster};

/// The number of different letters of a general.
const ORDERS: u32 = 50;

/// The number of times that each letter is posted. A general so posts 1,000 letters.
const TIMES: u32 = 20;

/// Returns the keys of a campaign of three generals with commander `general`, whose order is `number`.
fn keys(alloc: Global, general: u32, number: u32) -> Result<String, AllocError> {
    format!(in alloc; "generals = 3\nbound = 0\ncommander = {general}\norder = {number}\n")
}

/// Returns a copy of the letter if it is from this general, otherwise `None`.
fn own(alloc: Global, letter: &Letter, general: u32) -> Option<Letter>
    ensures { IfSome result (λ letter. letter.general ≡ general) }
{
    if letter.general != general {
        return None;
    }
    match letter.copy(alloc) {
        Ok(copy) => Some(copy),
        Err(_) => None,
    }
}

/// Returns the letter that `general` sends in round 1 as the commander of three generals, with the order `number`.
fn numbered(alloc: Global, general: u32, number: u32) -> Option<Letter>
    ensures { IfSome result (λ letter. letter.general ≡ general) }
{
    let Ok(keys) = keys(alloc, general, number) else {
        return None;
    };
    let Some(chronicle) = played(alloc, keys.as_str(), "", "") else {
        return None;
    };
    match first_letters(&chronicle).get(general as usize) {
        Some(letter) => own(alloc, letter, general),
        None => None,
    }
}

/// Two letters of general 1, and one letter of general 2.
#[derive(Drop)]
struct Letters {
    first: Letter,
    second: Letter,
    other: Letter,
}

/// Returns general 1's letters with the orders 1 and 2, and general 2's letter with the order 1.
fn three_letters(alloc: Global) -> Option<Letters>
    ensures first { IfSome result (λ letters. letters.first.general ≡ 1) }
    ensures second { IfSome result (λ letters. letters.second.general ≡ 1) }
    ensures other { IfSome result (λ letters. letters.other.general ≡ 2) }
{
    let Some(first) = numbered(alloc, 1, 1) else {
        return None;
    };
    let Some(second) = numbered(alloc, 1, 2) else {
        return None;
    };
    let Some(other) = numbered(alloc, 2, 1) else {
        return None;
    };
    Some(Letters {
        first,
        second,
        other,
    })
}

/// Returns a post for three generals with room for two letters, the posters of generals 1 and 2, and the collector.
fn post_of_three(alloc: Global) -> Option<(Post, (Poster, Poster, Collector))>
    ensures first { IfSome result (λ r. (r.1.0.table ≡ r.0.table) × (r.1.0.general ≡ 1)) }
    ensures second { IfSome result (λ r. (r.1.1.table ≡ r.0.table) × (r.1.1.general ≡ 2)) }
    ensures collector { IfSome result (λ r. r.1.2.table ≡ r.0.table) }
{
    let Ok((post, mut posters, collector)) = Post::new(alloc, 3, 2) else {
        return None;
    };
    let Some(second) = posters.pop() else {
        return None;
    };
    let Some(first) = posters.pop() else {
        return None;
    };
    Some((post, (first, second, collector)))
}

/// Posts a letter, and asserts that the post has room for it. Returns the poster.
fn goes_in<R: Wait + Abort>(rt: &R, post: &Post, poster: Poster, letter: Letter) -> Poster
    requires post { poster.table ≡ post.now.table }
    requires general { letter.general ≡ poster.general }
    ensures post { result.table ≡ poster.table }
    ensures general { result.general ≡ poster.general }
{
    let (poster, sent) = post.post(rt, poster, letter);
    assert!(rt; sent.is_ok());
    poster
}

/// Posts a letter, and asserts that the post has no room for it and returns a letter equal to `same`. Returns the
/// poster.
fn comes_back<R: Wait + Abort>(
    rt: &R,
    post: &Post,
    poster: Poster,
    letter: Letter,
    same: &Letter,
) -> (Poster, Letter)
    requires post { poster.table ≡ post.now.table }
    requires general { letter.general ≡ poster.general }
    ensures post { result.0.table ≡ poster.table }
    ensures general { result.0.general ≡ poster.general }
    ensures letter { result.1.general ≡ letter.general }
{
    let (poster, sent) = post.post(rt, poster, letter);
    match sent {
        Err(back) => {
            assert!(rt; back.same(same));
            (poster, back)
        }
        Ok(()) => panic!(rt; "there was room"),
    }
}

/// Returns whether the letter that was taken equals `expected`, or both are `None`.
fn is_taken(taken: &Option<Letter>, expected: Option<&Letter>) -> bool {
    match (taken, expected) {
        (Some(letter), Some(expected)) => letter.same(expected),
        (None, None) => true,
        _ => false,
    }
}

/// Takes a letter out of the post, and asserts that it equals `expected`, or that the post is empty if `expected` is
/// `None`. Returns the collector.
fn comes_next<R: Wait + Abort>(
    rt: &R,
    post: &Post,
    collector: Collector,
    expected: Option<&Letter>,
) -> Collector
    requires { collector.table ≡ post.now.table }
    ensures { result.table ≡ collector.table }
{
    let (collector, taken) = post.take(rt, collector);
    assert!(rt; is_taken(&taken, expected));
    collector
}

/// Lets generals 1 and 2 each post a letter, which fills the post, so that general 1's second letter is returned to
/// him. After his first letter is taken out, he posts his second again.
fn exchange<R: Wait + Abort>(
    rt: &R,
    post: &Post,
    ends: (Poster, Poster, Collector),
    letters: Letters,
    same: &Letters,
) -> (Poster, Poster, Collector)
    requires one { (ends.0.table ≡ post.now.table) × (ends.0.general ≡ 1) }
    requires other { (ends.1.table ≡ post.now.table) × (ends.1.general ≡ 2) }
    requires collector { ends.2.table ≡ post.now.table }
    requires first { letters.first.general ≡ 1 }
    requires second { letters.second.general ≡ 1 }
    requires third { letters.other.general ≡ 2 }
    ensures one { result.0.table ≡ post.now.table }
    ensures other { result.1.table ≡ post.now.table }
    ensures collector { result.2.table ≡ post.now.table }
{
    let (one, other, collector) = ends;
    let Letters {
        first,
        second,
        other: third,
    } = letters;
    let one = goes_in(rt, post, one, first);
    let other = goes_in(rt, post, other, third);
    let (one, back) = comes_back(rt, post, one, second, &same.second);
    let collector = comes_next(rt, post, collector, Some(&same.first));
    let one = goes_in(rt, post, one, back);
    (one, other, collector)
}

/// Makes a post in which generals 1 and 2 have posted a letter each, and general 1 has posted a second one after his
/// first was taken out.
fn exchanged<R: Wait + Abort>(
    rt: &R,
    alloc: Global,
    same: &Letters,
) -> (Post, (Poster, Poster, Collector))
    ensures one { result.1.0.table ≡ result.0.table }
    ensures other { result.1.1.table ≡ result.0.table }
    ensures collector { result.1.2.table ≡ result.0.table }
{
    let Some(letters) = three_letters(alloc) else {
        panic!(rt; "letters")
    };
    let Some((post, ends)) = post_of_three(alloc) else {
        panic!(rt; "a post")
    };
    let ends = exchange(rt, &post, ends, letters, same);
    (post, ends)
}

/// Closes the queue of letters, and returns the letters that were still in it.
fn left_in<R: Wait + Abort>(
    rt: &R,
    alloc: Global,
    post: Post,
    ends: (Poster, Poster, Collector),
) -> Vec<Letter>
    requires one { ends.0.table ≡ post.table }
    requires other { ends.1.table ≡ post.table }
    requires collector { ends.2.table ≡ post.table }
{
    let (one, other, collector) = ends;
    let Ok(posters) = Vec::from_array(alloc, [one, other]) else {
        panic!(rt; "posters")
    };
    match post.settle(rt, posters, collector) {
        Ok(left) => left,
        Err(_) => panic!(rt; "letters"),
    }
}

/// Returns whether `left` is exactly these two letters, in this order.
fn are_left(left: &[Letter], first: &Letter, second: &Letter) -> bool {
    match left {
        [one, other] => one.same(first) && other.same(second),
        _ => false,
    }
}

/// Takes two letters out of the post, and asserts that they are general 2's letter and general 1's second one. Then
/// asserts that the post is empty.
fn others_come<R: Wait + Abort>(
    rt: &R,
    post: &Post,
    collector: Collector,
    letters: &Letters,
) -> Collector
    requires { collector.table ≡ post.now.table }
    ensures { result.table ≡ collector.table }
{
    let collector = comes_next(rt, post, collector, Some(&letters.other));
    let collector = comes_next(rt, post, collector, Some(&letters.second));
    comes_next(rt, post, collector, None)
}

#[test]
fn letters_are_taken_in_the_order_of_their_posting(rt: HostRuntime) {
    let alloc = rt.alloc();
    let Some(letters) = three_letters(alloc) else {
        panic!(rt; "letters")
    };
    let (post, (one, other, collector)) = exchanged(&rt, alloc, &letters);
    let collector = others_come(&rt, &post, collector, &letters);
    let left = left_in(&rt, alloc, post, (one, other, collector));
    assert!(rt; left.is_empty());
}

#[test]
fn letters_are_left_in_the_order_of_their_posting(rt: HostRuntime) {
    let alloc = rt.alloc();
    let Some(letters) = three_letters(alloc) else {
        panic!(rt; "letters")
    };
    let (post, ends) = exchanged(&rt, alloc, &letters);
    let left = left_in(&rt, alloc, post, ends);
    assert!(rt; are_left(left.as_slice(), &letters.other, &letters.second));
}

/// Returns a general's 50 different letters, ascending by their orders.
fn originals(alloc: Global, general: u32) -> Option<Vec<Letter>> {
    let mut letters = Vec::new(alloc);
    for number in 0..ORDERS {
        let Some(letter) = numbered(alloc, general, number) else {
            return None;
        };
        if letters.push(letter).is_err() {
            return None;
        }
    }
    Some(letters)
}

/// Returns 20 copies of a list of letters, one after the other.
fn repeated(alloc: Global, originals: &[Letter]) -> Result<Vec<Letter>, AllocError> {
    let mut letters = Vec::new(alloc);
    for _ in 0..TIMES {
        for letter in originals {
            letters.push(letter.copy(alloc)?)?;
        }
    }
    Ok(letters)
}

/// Returns a general's 1,000 letters: 20 times his 50 different ones.
fn letters_of(alloc: Global, general: u32) -> Option<Vec<Letter>> {
    let Some(originals) = originals(alloc, general) else {
        return None;
    };
    match repeated(alloc, originals.as_slice()) {
        Ok(letters) => Some(letters),
        Err(_) => None,
    }
}

/// Posts a letter, trying again as long as the post is full. Returns the poster.
fn send<R: Wait>(rt: &R, post: &Post, mut poster: Poster, mut letter: Letter) -> Poster
    requires post { poster.table ≡ post.now.table }
    requires general { letter.general ≡ poster.general }
    ensures post { result.table ≡ poster.table }
    ensures general { result.general ≡ poster.general }
{
    for _ in rt.forever() {
        let (again, sent) = post.post(rt, poster, letter);
        poster = again;
        match sent {
            Ok(()) => return poster,
            Err(back) => letter = back,
        }
        thread::yield_now();
    }
    unreachable!()
}

/// Posts copies of these letters of a general, in order. Returns whether all were his and were posted.
fn send_all<R: Wait>(
    rt: &R,
    alloc: Global,
    post: &Post,
    mut poster: Poster,
    general: u32,
    letters: &[Letter],
) -> bool
    requires post { poster.table ≡ post.now.table }
    requires general { poster.general ≡ general }
{
    for letter in letters {
        let Some(copy) = own(alloc, letter, general) else {
            return false;
        };
        poster = send(rt, post, poster, copy);
    }
    true
}

/// Posts copies of these letters of a general, and then adds 1 to `ended`. Returns whether all letters were his and
/// were posted.
fn send_and_end<R: Wait>(
    rt: &R,
    alloc: Global,
    post: &Post,
    poster: Poster,
    general: u32,
    letters: &[Letter],
    ended: &AtomicU32,
) -> bool
    requires post { poster.table ≡ post.now.table }
    requires general { poster.general ≡ general }
{
    let sent = send_all(rt, alloc, post, poster, general, letters);
    ended.fetch_add(1, Ordering::SeqCst);
    sent
}

/// A general's letters in the order in which he posts them, and how many of them were received.
#[derive(Drop)]
struct Course<'a> {
    letters: &'a [Letter],
    come: usize,
}

impl<'a> Course<'a> {
    fn of(letters: &'a [Letter]) -> Course<'a> {
        Course { letters, come: 0 }
    }

    /// Counts one more received letter. Returns whether it is the next of the general's letters.
    fn goes_on(&mut self, letter: &Letter) -> bool {
        match self.letters.get(self.come) {
            Some(wanted) => {
                self.come = self.come.wrapping_add(1);
                wanted.same(letter)
            }
            None => false,
        }
    }

    /// Returns whether all of the general's letters were received.
    fn is_over(&self) -> bool {
        self.come == self.letters.len()
    }
}

/// Counts one more received letter of general 0 or 1. Returns whether it is the next of his letters.
fn is_next(first: &mut Course<'_>, second: &mut Course<'_>, letter: &Letter) -> bool {
    match letter.general {
        0 => first.goes_on(letter),
        1 => second.goes_on(letter),
        _ => false,
    }
}

/// Takes letters out of the post until both generals have posted all theirs and the post is empty. Returns whether each
/// general's letters were received in order, each once.
fn receive<R: Wait>(
    rt: &R,
    post: &Post,
    mut collector: Collector,
    mut first: Course<'_>,
    mut second: Course<'_>,
    ended: &AtomicU32,
) -> bool
    requires { collector.table ≡ post.now.table }
{
    let mut in_order = true;
    for _ in rt.forever() {
        let over = ended.load(Ordering::SeqCst) == 2;
        let (again, taken) = post.take(rt, collector);
        collector = again;
        match taken {
            Some(letter) => in_order = is_next(&mut first, &mut second, &letter) && in_order,
            None if over => break,
            None => thread::yield_now(),
        }
    }
    in_order && first.is_over() && second.is_over()
}

/// Posts the letters of generals 0 and 1 from two threads at the same time. Returns whether all were posted.
fn both_send<R: Threads + Wait + Sync>(
    rt: &R,
    alloc: Global,
    post: &Post,
    posters: (Poster, Poster),
    firsts: &[Letter],
    seconds: &[Letter],
    ended: &AtomicU32,
) -> bool
    requires first { (posters.0.table ≡ post.now.table) × (posters.0.general ≡ 0) }
    requires second { (posters.1.table ≡ post.now.table) × (posters.1.general ≡ 1) }
{
    let (first, second) = posters;
    let (one, other) = thread::join(
        rt,
        move || -> bool
            requires { (first.table ≡ post.now.table) × (first.general ≡ 0) }
        { send_and_end(rt, alloc, post, first, 0, firsts, ended) },
        move || -> bool
            requires { (second.table ≡ post.now.table) × (second.general ≡ 1) }
        { send_and_end(rt, alloc, post, second, 1, seconds, ended) },
    );
    one && other
}

/// Checks that the letters of two generals are received in order if both post at the same time while a third thread
/// takes them out.
fn come_in_order<R: Threads + Wait + Sync>(
    rt: &R,
    alloc: Global,
    post: &Post,
    posters: (Poster, Poster),
    collector: Collector,
    firsts: &[Letter],
    seconds: &[Letter],
) -> bool
    requires first { (posters.0.table ≡ post.now.table) × (posters.0.general ≡ 0) }
    requires second { (posters.1.table ≡ post.now.table) × (posters.1.general ≡ 1) }
    requires collector { collector.table ≡ post.now.table }
{
    let (first, second) = posters;
    let ended = AtomicU32::new(0);
    let count = &ended;
    let (sent, received) = thread::join(
        rt,
        move || -> bool
            requires { (first.table ≡ post.now.table) × (first.general ≡ 0) × (second.table ≡ post.now.table)
                × (second.general ≡ 1) }
        { both_send(rt, alloc, post, (first, second), firsts, seconds, count) },
        move || -> bool
            requires { collector.table ≡ post.now.table }
        {
            receive(
                rt,
                post,
                collector,
                Course::of(firsts),
                Course::of(seconds),
                count,
            )
        },
    );
    sent && received
}

/// Returns a post for two generals with room for four letters, their posters, and the collector.
fn post_of_two(alloc: Global) -> Option<(Post, (Poster, Poster), Collector)>
    ensures first { IfSome result (λ r. (r.1.0.table ≡ r.0.table) × (r.1.0.general ≡ 0)) }
    ensures second { IfSome result (λ r. (r.1.1.table ≡ r.0.table) × (r.1.1.general ≡ 1)) }
    ensures collector { IfSome result (λ r. r.2.table ≡ r.0.table) }
{
    let Ok((post, mut posters, collector)) = Post::new(alloc, 2, 4) else {
        return None;
    };
    let Some(second) = posters.pop() else {
        return None;
    };
    let Some(first) = posters.pop() else {
        return None;
    };
    Some((post, (first, second), collector))
}

/// Checks that these letters of two generals are received in order if both post at the same time.
fn come_between_threads<R: Threads + Wait + Sync>(
    rt: &R,
    alloc: Global,
    firsts: &[Letter],
    seconds: &[Letter],
) -> bool {
    match post_of_two(alloc) {
        Some((post, posters, collector)) => {
            come_in_order(rt, alloc, &post, posters, collector, firsts, seconds)
        }
        None => false,
    }
}

/// Checks that 1,000 letters of each of two generals are received in order if both post at the same time.
fn thousands_come<R: Threads + Wait + Sync>(rt: &R, alloc: Global) -> bool {
    let Some(firsts) = letters_of(alloc, 0) else {
        return false;
    };
    let Some(seconds) = letters_of(alloc, 1) else {
        return false;
    };
    firsts.len() == 1000
        && seconds.len() == 1000
        && come_between_threads(rt, alloc, firsts.as_slice(), seconds.as_slice())
}

#[test]
fn letters_of_two_threads_come_in_order(rt: HostRuntime) {
    assert!(rt; thousands_come(&rt, rt.alloc()));
}
