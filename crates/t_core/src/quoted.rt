// The size of quoted data.
ghost use Rattle.std.specs.Prelude.{◌≡◌, ◌+◌, ◌^◌, ◌<◌, ◌≤◌, SomeIff, MatchOption};
ghost use Rattle.t_prim.specs.SharedParts.{HasLowerParts};
ghost use Rattle.t_core.specs.Counts.{datum_nodes, parts};
ghost use Rattle.t_core.specs.Smaller.{AreOver, CountsOne};

use t_base::Const;

// How many data may wait to be counted. Parentheses nest less deep in a text.
const ROOM: usize = 512;

/// How many pairs and atoms a datum has. It takes one step for an atom, as most constants are.
pub fn count_constant(pairs: &[(Const, Const)], c: Const) -> u64
    requires lower { HasLowerParts pairs.now }
    requires fits { datum_nodes pairs.now c < 2 ^ 32 }
    ensures { result ≡ datum_nodes pairs.now c }
{
    match pair_at(pairs, c) {
        Some(_) => count_datum(pairs, c),
        None => 1,
    }
}

// How many pairs and atoms a datum has.
fn count_datum(pairs: &[(Const, Const)], root: Const) -> u64
    requires lower { HasLowerParts pairs.now }
    requires fits { datum_nodes pairs.now root < 2 ^ 32 }
    ensures { result ≡ datum_nodes pairs.now root }
{
    let mut waiting = [Const::Nil; ROOM];
    let mut depth = 0;
    let mut at = root;
    let mut total = 0;
    loop {
        total += 1;
        match pair_at(pairs, at) {
            Some((head, tail)) => {
                if depth < ROOM {
                    waiting[depth] = tail;
                    depth += 1;
                } else {
                    total += count_slowly(pairs, tail);
                }
                at = head;
            }
            None => {
                if depth == 0 {
                    return total;
                }
                depth -= 1;
                at = waiting[depth];
            }
        }
    }
}

fn pair_at(pairs: &[(Const, Const)], c: Const) -> Option<(Const, Const)>
    ensures { result ≡ parts pairs.now c }
{
    match c {
        Const::Pair(k) => pairs.get(k as usize).copied(),
        _ => None,
    }
}

// The size of a datum of any nesting. A text doesn't nest so deep that this is called.
fn count_slowly(pairs: &[(Const, Const)], root: Const) -> u64
    requires lower { HasLowerParts pairs.now }
    requires fits { datum_nodes pairs.now root < 2 ^ 32 }
    ensures { result ≡ datum_nodes pairs.now root }
{
    count_within(pairs, root, u64::from(u32::MAX)).unwrap()
}

// The size of a datum, where it is at most `most`. It recurs at half of `most` at most.
#[cycle(bounded)]
fn count_within(pairs: &[(Const, Const)], root: Const, most: u64) -> Option<u64>
    requires lower { HasLowerParts pairs.now }
    requires small { most < 2 ^ 32 }
    ensures { SomeIff result (datum_nodes pairs.now root ≤ most) (datum_nodes pairs.now root) }
{
    let mut at = root;
    let mut total = 0;
    while total < most {
        total += 1;
        let (head, tail) = match pair_at(pairs, at) {
            Some(parts) => parts,
            None => return Some(total),
        };
        let (count, rest) = count_smaller(pairs, head, tail, (most - total) / 2)?;
        total += count;
        at = rest;
    }
    None
}

// The size of one of two data, where it is at most `most`, with the other datum.
#[cycle(bounded)]
fn count_smaller(pairs: &[(Const, Const)], a: Const, b: Const, most: u64) -> Option<(u64, Const)>
    requires lower { HasLowerParts pairs.now }
    requires small { most < 2 ^ 32 }
    ensures { MatchOption result (AreOver pairs.now a b most) (CountsOne pairs.now a b most) }
{
    let mut limit = most.min(1);
    loop {
        if let Some(count) = count_within(pairs, a, limit) {
            return Some((count, b));
        }
        if let Some(count) = count_within(pairs, b, limit) {
            return Some((count, a));
        }
        if limit >= most {
            return None;
        }
        limit = most.min(2 * limit);
    }
}
