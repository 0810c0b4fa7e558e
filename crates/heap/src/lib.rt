// A binary heap over a lent slice of records, for every kind of record whose order is a total one on the records put in.
#![tactic(auto)]

ghost use Rattle.std.specs.Prelude.{◌≡◌, ℕ, ◌+◌, ◌-◌, ◌*◌, ◌<◌, ◌≤◌, Bool, true, false, ◌∷◌, length, take, MatchOption, MatchResult, slice_index_or};
ghost use Rattle.std.specs.List.Sorted.{IsPermutation};
ghost use Rattle.heap.specs.Order.{OrderOn, Valid, Heaped, Best, Least, Stands, Pushed, Popped, used};

// A record that a heap may hold. What a heap promises of the least rests on `before` being an order on the records that are `valid`: a premise
// and no law of the trait, which would shut out records that are only kept and given back, and not ordered.
pub trait Ordered: Copy {
    ghost valid: { Self → Type 0 };

    ghost before: { Self → Self → Bool };

    fn is_before(self, other: Self) -> bool
        ensures { result ≡ before self other };
}

// Whether the record at `a` is before the one at `b`.
fn precedes<T: Ordered>(slots: &[T], a: usize, b: usize) -> bool
    requires { (a < length slots.now) × (b < length slots.now) }
    ensures { (d : T) → T.before (slice_index_or slots.now a d) (slice_index_or slots.now b d) ≡ result }
{
    slots[a].is_before(slots[b])
}

// The child of `at` that is before the other, or the only one.
fn first_child<T: Ordered>(slots: &[T], at: usize) -> usize
    requires { 2 * at + 1 < length slots.now }
    ensures bound { (result < length slots.now) × (at * 2 + 1 ≤ result) × (result ≤ at * 2 + 2) }
    ensures best { OrderOn T.valid T.before → Valid T.valid slots.now (length slots.now) → Best T.before slots.now at result (length slots.now) }
{
    let left = 2 * at + 1;
    let right = left + 1;
    if right >= slots.len() {
        return left;
    }
    if precedes(slots, right, left) {
        return right;
    }
    left
}

// Brings the last record up to its place. The loop goes from child to parent by halves, as no range or iterator does.
fn sift_up<T: Ordered>(slots: &mut [T])
    ensures same { IsPermutation slots.old slots.new }
    ensures rises { OrderOn T.valid T.before → Valid T.valid slots.old (length slots.old) → Heaped T.before slots.old 0 (length slots.old - 1) → Stands T.valid T.before slots.new (length slots.old) }
{
    let Some(mut at) = slots.len().checked_sub(1) else {
        return;
    };
    while at > 0 {
        let up = (at - 1) / 2;
        if !precedes(slots, at, up) {
            return;
        }
        slots.swap(up, at);
        at = up;
    }
}

// Brings the first record down to its place, from parent to child, by doubling.
fn sift_down<T: Ordered>(slots: &mut [T])
    ensures same { IsPermutation slots.old slots.new }
    ensures sinks { OrderOn T.valid T.before → Valid T.valid slots.old (length slots.old) → Heaped T.before slots.old 1 (length slots.old) → Stands T.valid T.before slots.new (length slots.old) }
{
    let mut at = 0;
    while at < slots.len() / 2 {
        let child = first_child(slots, at);
        if !precedes(slots, child, at) {
            return;
        }
        slots.swap(at, child);
        at = child;
    }
}

// Takes the first record out, and leaves the others in front, a heap again.
fn take_first<T: Ordered>(full: &mut [T]) -> T
    requires { 0 < length full.old }
    ensures same { IsPermutation full.old (result ∷ take (length full.old - 1) full.new) }
    ensures least { OrderOn T.valid T.before → Stands T.valid T.before full.old (length full.old) → Least T.before result full.old × Stands T.valid T.before full.new (length full.old - 1) }
{
    let last = full.len() - 1;
    let first = full[0];
    full.swap(0, last);
    sift_down(&mut full[0..last]);
    first
}

// Puts x behind the first `len` of `slots`, a heap, and brings it to its place. This and `take` have the slots and their count apart: a heap
// that is lent whole would have to be put together again for a step that speaks of the slots alone.
fn put<T: Ordered>(slots: &mut [T], len: usize, x: T)
    requires { len < length slots.old }
    ensures { Pushed T.valid T.before slots.old len x slots.new (len + 1) }
{
    slots[len] = x;
    sift_up(&mut slots[0..len + 1]);
}

// Takes the least of the first `len` of `slots`, a heap.
fn take<T: Ordered>(slots: &mut [T], len: usize) -> T
    requires { (0 < len) × (len ≤ length slots.old) }
    ensures { Popped T.valid T.before slots.old len result slots.new (len - 1) }
{
    take_first(&mut slots[0..len])
}

// A heap: the first `len` of the slots are in use. The slots are lent by a host that may have no allocator, so no `Vec` holds them; and the host reads
// them again, so each call says which slots they are, and no model hides them.
#[derive(Drop)]
pub struct Heap<'a, T> {
    slots: &'a mut [T],
    len: usize,
}

// The refusal of a push: every slot is in use.
#[derive(Clone, Copy, PartialEq, Eq, Debug)]
pub struct Full;

impl<'a, T: Ordered> Heap<'a, T> {
    // A heap over `slots`, of which the first `len` are in use.
    pub fn over(slots: &'a mut [T], len: usize) -> Heap<'a, T>
        ensures len { result.len ≡ len }
        ensures slots { result.slots.now ≡ slots.old }
        ensures lender { result.slots.ghost_name ≡ slots.entry.ghost_name }
    {
        Heap { slots, len }
    }

    // How many slots are in use.
    pub fn len(&self) -> usize
        ensures { result ≡ used self.now.slots.now self.now.len }
    {
        self.len.min(self.slots.len())
    }

    // Puts x in; refused where every slot is in use.
    pub fn push(&mut self, x: T) -> Result<(), Full>
        ensures lender { self.new.slots.ghost_name ≡ self.old.slots.ghost_name }
        ensures done { MatchResult result (λ _. (self.old.len < length self.old.slots.now) × Pushed T.valid T.before self.old.slots.now self.old.len x self.new.slots.now self.new.len) (λ _. (length self.old.slots.now ≤ self.old.len) × (self.new.slots.now ≡ self.old.slots.now) × (self.new.len ≡ self.old.len)) }
    {
        let n = self.len;
        if n >= self.slots.len() {
            return Err(Full);
        }
        put(self.slots, n, x);
        self.len = n + 1;
        Ok(())
    }

    // Takes the least record out, if there is one.
    pub fn pop(&mut self) -> Option<T>
        ensures lender { self.new.slots.ghost_name ≡ self.old.slots.ghost_name }
        ensures done { MatchOption result ((used self.old.slots.now self.old.len ≡ 0) × (self.new.slots.now ≡ self.old.slots.now) × (self.new.len ≡ self.old.len)) (λ x. Popped T.valid T.before self.old.slots.now (used self.old.slots.now self.old.len) x self.new.slots.now self.new.len) }
    {
        let n = self.len();
        if n == 0 {
            return None;
        }
        let x = take(self.slots, n);
        self.len = n - 1;
        Some(x)
    }
}
