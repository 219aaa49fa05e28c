// A stack over memory that is lent, for any element.
ghost use Rattle.std.specs.Prelude.{◌≡◌, ◌+◌, ◌<◌, ◌≤◌, ◌∷◌, length};
ghost use Rattle.visit.specs.Held.{Popped, held};

// The first `used` slots, of which the last is the top. The slots are lent: a Vec would allocate.
#[derive(Drop)]
pub struct Stack<'a, T> {
    pub slots: &'a mut [T],
    pub used: usize,
    ghost fits: { used ≤ length slots.now },
}

impl<'a, T: Copy> Stack<'a, T> {
    // An empty stack. O(1).
    pub fn new(slots: &'a mut [T]) -> Stack<'a, T>
        ensures empty { result.used ≡ 0 }
        ensures slots { result.slots.now ≡ slots.old }
    {
        Stack { slots, used: 0 }
    }

    // Puts `x` on the top. O(1).
    pub fn push(&mut self, x: T)
        requires { self.old.used < length self.old.slots.now }
        ensures used { self.new.used ≡ self.old.used + 1 }
        ensures room { length self.new.slots.now ≡ length self.old.slots.now }
        ensures held { held self.new.slots.now self.new.used ≡ x ∷ held self.old.slots.now self.old.used }
    {
        self.slots[self.used] = x;
        self.used += 1;
    }

    // Takes the top off, if there is one. O(1).
    pub fn pop(&mut self) -> Option<T>
        ensures room { length self.new.slots.now ≡ length self.old.slots.now }
        ensures popped { Popped result self.old.used self.new.used
            (held self.old.slots.now self.old.used) (held self.new.slots.now self.new.used) }
    {
        self.used = self.used.checked_sub(1)?;
        Some(self.slots[self.used])
    }
}
