// Replays the list `sort`. A case's words are an order's number, the number of values, the values, and the
// values as the Rust sorts them.
#![tactic(auto)]

ghost use Rattle.std.specs.Prelude.{◌*◌, ◌≤◌, length};

use order::Order;
use std::io;
use vectors::{Cursor, Unread};

// The order with a number: by partial_cmp, without the values that are not a number, or by total_cmp.
fn order_of(number: u64) -> Option<Order> {
    match number {
        8 => Some(Order::Partial),
        9 => Some(Order::Total),
        _ => None,
    }
}

// Sorts the values into the front of work, and returns how many there are. A match sees that each order has its sort.
fn sort_by(order: Order, values: &[u64], work: &mut [f64]) -> usize
    requires { 2 * length values.now ≤ length work.old }
{
    match order {
        Order::Partial => quantile::prepare_for_quantile_float64(values, work),
        Order::Total => {
            sort::sort_values(values, work);
            values.len()
        }
    }
}

// Whether the next case has the stored answer. A number that names no order sorts nothing.
fn case(words: &mut Cursor) -> Result<bool, Unread> {
    let order = order_of(words.word()?);
    let n = words.count()?;
    let values = words.words(n)?;
    let stored = words.words(n)?;
    let mut work = [0.0; 2 * vectors::MOST];
    let sorted = order.map_or(0, |order| sort_by(order, &values, &mut work));
    let agree = work
        .iter()
        .zip(&stored)
        .all(|(x, stored)| ieee::bits_of(*x) == *stored);
    Ok(sorted == n && agree)
}

fn main(rt: HostRuntime) -> io::Result<()> {
    replay::replay(&rt, case)?;
    Ok(())
}
