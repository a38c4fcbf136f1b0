// Builds and empties a long list in every pair of orders, and writes for each pair a digest of the pool's words and the answers.
#![tactic(auto)]

ghost use Rattle.std.specs.Prelude.{◌≤◌};

use digest::rolled_all;
use model::Answer;
use pool::{HEAD_WORDS, NODE_WORDS};
use std::io;

// How long the list grows, and nodes enough for it: fewer than 15 elements a node.
const ELEMENTS: u64 = 2000;

const NODES: usize = 140;

const WORDS: usize = HEAD_WORDS + NODE_WORDS * NODES;

// Where elements go in or come out: in front, at the back, in the middle, or scattered by a prime.
#[derive(Clone, Copy)]
enum Order {
    Front,
    Back,
    Middle,
    Scattered,
}

impl Order {
    const ALL: [Order; 4] = [Order::Front, Order::Back, Order::Middle, Order::Scattered];

    // The place of the n-th element.
    fn place(self, n: u64) -> u64
        requires { 1 ≤ n }
    {
        match self {
            Order::Front => 0,
            Order::Back => n - 1,
            Order::Middle => n / 2,
            Order::Scattered => 1000003 % n,
        }
    }
}

// C's answer, its number too: the digests are of that.
fn rolled_answer(digest: u64, a: Answer) -> u64 {
    rolled_all(digest, &[a.number, a.value, a.compared])
}

// Puts every element in: the n-th is n times a prime.
fn build(pool: &mut [u64], order: Order) {
    for n in 1..=ELEMENTS {
        let _ = door::insert(pool, order.place(n), n * 2654435761);
    }
}

// Takes every element out, and rolls what `get` and `remove` answer for it.
fn take_down(pool: &mut [u64], order: Order, digest: u64) -> u64 {
    let mut rolling = digest;
    for n in (1..=ELEMENTS).rev() {
        let at = order.place(n);
        rolling = rolled_answer(rolling, door::get(pool, at).into());
        rolling = rolled_answer(rolling, door::remove(pool, at).into());
    }
    rolling
}

fn round(pool: &mut [u64], up: Order, down: Order) -> u64 {
    let _ = door::format(pool);
    build(pool, up);
    let full = rolled_all(0, pool);
    let empty = take_down(pool, down, full);
    rolled_all(empty, pool)
}

fn main(rt: HostRuntime) -> io::Result<()> {
    let mut pool = [0u64; WORDS];
    for up in Order::ALL {
        for down in Order::ALL {
            let digest = round(&mut pool, up, down);
            println!(rt; "{digest:016x}")?;
        }
    }
    Ok(())
}
