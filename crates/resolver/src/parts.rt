// A heap that lies in a part of a table. A function of its own makes it over that part. Tried in one: where the heap is made and let go beside the
// table, a proof knows how long the part is afterwards, and not what it holds.
ghost use Rattle.std.specs.Prelude.{◌≡◌, ◌+◌, ◌-◌, ◌*◌, ◌<◌, ◌≤◌, length, take, drop, MatchOption};
ghost use Rattle.heap.specs.Order.{Pushed, Popped};
ghost use Rattle.resolver.specs.Tables.{part};

use heap::{Heap, Ordered};

// Puts x into the heap that the first `len` of `slots` are; answers how many are in use then.
fn enter<T: Ordered>(slots: &mut [T], len: usize, x: T) -> usize
    requires { len ≤ length slots.old }
    ensures fits { result ≤ length slots.old }
    ensures done { len < length slots.old → Pushed T.valid T.before slots.old len x slots.new result }
{
    let mut waiting = Heap::over(slots, len);
    let _ = waiting.push(x);
    waiting.len()
}

// Takes the least of the heap that the first `len` of `slots` are.
fn draw<T: Ordered>(slots: &mut [T], len: usize) -> Option<T>
    requires { len ≤ length slots.old }
    ensures { MatchOption result ((len ≡ 0) × (slots.new ≡ slots.old)) (λ x. Popped T.valid T.before slots.old len x slots.new (len - 1)) }
{
    let mut waiting = Heap::over(slots, len);
    waiting.pop()
}

// Puts x into the heap in part i of a table, which is cut into parts of 16 places.
pub(crate) fn enter_part<T: Ordered>(table: &mut [T], i: usize, len: usize, x: T) -> usize
    requires within { 16 * i + 16 ≤ length table.old }
    requires few { len ≤ 16 }
    ensures fits { result ≤ 16 }
    ensures below { take (16 * i) table.new ≡ take (16 * i) table.old }
    ensures above { drop (16 * i + 16) table.new ≡ drop (16 * i + 16) table.old }
    ensures inside { len < 16 → Pushed T.valid T.before (part i table.old) len x (part i table.new) result }
{
    enter(&mut table[16 * i..16 * i + 16], len, x)
}

// Takes the least of the heap in part i of a table, which is cut into parts of 16 places.
pub(crate) fn draw_part<T: Ordered>(table: &mut [T], i: usize, len: usize) -> Option<T>
    requires within { 16 * i + 16 ≤ length table.old }
    requires few { len ≤ 16 }
    ensures below { take (16 * i) table.new ≡ take (16 * i) table.old }
    ensures above { drop (16 * i + 16) table.new ≡ drop (16 * i + 16) table.old }
    ensures inside { MatchOption result ((len ≡ 0) × (table.new ≡ table.old)) (λ x. Popped T.valid T.before (part i table.old) len x (part i table.new) (len - 1)) }
{
    draw(&mut table[16 * i..16 * i + 16], len)
}
