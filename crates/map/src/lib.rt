// The map of the areas, and the conversion between addresses and shadow positions.
#![tactic(auto)]

ghost use Rattle.std.specs.Prelude.{◌≡◌, ◌+◌, ◌-◌, ◌*◌, ◌/◌, ◌%◌, ◌<◌, ◌≤◌, ◌&&◌, ◌==◌, nat_le};
ghost use Rattle.map.specs.Map.{good_map, start_of, end_of};
ghost use Rattle.map.specs.FormMap.{number_size, segment_size, under};
ghost use Rattle.map.specs.Locating.{Lies};

#[derive(Clone, Copy, PartialEq, Eq)]
pub struct Address(pub u32);

#[derive(Clone, Copy, PartialEq, Eq)]
pub struct Position(pub usize);

#[derive(Clone, Copy)]
pub struct Map {
    pub heap_start: u32,
    pub heap_size: u32,
    pub stack_start: u32,
    pub stack_size: u32,
}

// The form of the heap: the player's numbers have four bytes and its segments 8, the desk's eight and 16. The stack is the same in both.
#[derive(Clone, Copy)]
pub enum Form {
    Player,
    Desk,
}

#[derive(Clone, Copy)]
pub enum Area {
    Heap,
    Stack,
    Outside,
}

// Where an address lies: its position in the area's shadow.
#[derive(Clone, Copy)]
pub enum Located {
    Heap(Position),
    Stack(Position),
    Outside,
}

impl Form {
    // The bytes of a number in the heap shadow.
    pub fn number(self) -> usize
        ensures { result ≡ number_size self }
    {
        match self {
            Form::Player => 4,
            Form::Desk => 8,
        }
    }

    // The bytes of a heap segment.
    pub fn segment(self) -> usize
        ensures { result ≡ segment_size self }
    {
        match self {
            Form::Player => 8,
            Form::Desk => 16,
        }
    }

    // The start of the segment that a position of the heap lies in.
    pub fn start(self, at: usize) -> usize
        ensures { result ≡ at / segment_size self * segment_size self }
    {
        match self {
            Form::Player => at / 8 * 8,
            Form::Desk => at / 16 * 16,
        }
    }

    // Whether so many bytes are whole segments.
    pub fn whole(self, n: usize) -> bool
        ensures { result ≡ (n % segment_size self == 0) }
    {
        match self {
            Form::Player => n % 8 == 0,
            Form::Desk => n % 16 == 0,
        }
    }
}

// The position of an address in the shadow of the area that begins at start. Of an address below it the difference wraps in 64 bits, to what is
// no position but above all sizes: so one comparison tells whether the address lies in the area.
pub fn to_position(a: Address, start: Address) -> Position
    ensures { (start.0 ≤ a.0 → result.0 ≡ a.0 - start.0) × (a.0 < start.0 → 4294967296 ≤ result.0) }
{
    Position((a.0 as usize).wrapping_sub(start.0 as usize))
}

// The address of a shadow position of the area that begins at start.
pub fn to_address(p: Position, start: Address) -> Address
    requires { start.0 + p.0 < 4294967296 }
    ensures { result.0 ≡ start.0 + p.0 }
{
    Address(start.0 + p.0 as u32)
}

// Whether the heap's start and size are whole segments of the form, the size two at least.
fn in_segments(form: Form, h: usize, n: usize) -> bool
    ensures { result ≡ (h % segment_size form == 0 && n % segment_size form == 0 && nat_le (segment_size form + segment_size form) n) }
{
    form.whole(h) & form.whole(n) & (2 * form.segment() <= n)
}

// Whether an area does not begin at 0 and ends at or below another's start: of 0 the number below wraps, to above all starts.
fn below(start: u32, size: u64, other: u64) -> bool
    requires { (size < 4294967296) × (other < 4294967296) }
    ensures { result ≡ (nat_le 1 start && nat_le (start + size) other) }
{
    start.wrapping_sub(1) as u64 + size < other
}

impl Map {
    // The sums are taken in 64 bits, where they cannot wrap. Of two areas that lie apart the lower ends at or below the other's start: only that
    // it does not begin at 0 is left to ask, and of the upper only where it ends.
    pub fn good(self, form: Form) -> bool
        ensures { result ≡ good_map (under form self) }
    {
        let h = self.heap_start as u64;
        let n = self.heap_size as u64;
        let s = self.stack_start as u64;
        let k = self.stack_size as u64;
        let heap = in_segments(form, self.heap_start as usize, self.heap_size as usize)
            & (n <= 131072);
        let stack = (s % 8 == 0) & (k % 8 == 0) & (16 <= k) & (k <= 65536);
        if !(heap & stack) {
            return false;
        }
        if below(self.heap_start, n, s) {
            return s + k <= 4294967295;
        }
        if below(self.stack_start, k, h) {
            return h + n <= 4294967295;
        }
        false
    }

    // The area that an address lies in, and its position there; this holds for every map. A choice of the area alone, before the position is
    // taken, would cost each call ten instructions.
    pub fn locate(self, a: Address) -> Located
        ensures { Lies self a.0 result }
    {
        let p = to_position(a, Address(self.heap_start));
        if p.0 < self.heap_size as usize {
            return Located::Heap(p);
        }
        let q = to_position(a, Address(self.stack_start));
        if q.0 < self.stack_size as usize {
            return Located::Stack(q);
        }
        Located::Outside
    }

    // Where an area begins: the origin of its positions. Outside has none: 0, as the definition `start_of` in specs/ has it.
    pub fn start_of(self, k: Area) -> Address
        ensures { result.0 ≡ start_of self k }
    {
        match k {
            Area::Heap => Address(self.heap_start),
            Area::Stack => Address(self.stack_start),
            Area::Outside => Address(0),
        }
    }

    // The address after an area's last one, where it fits, as it does under a good map; 0 outside, as the definition `end_of` has it.
    pub fn end_of(self, k: Area) -> Address
        requires { (self.heap_start + self.heap_size ≤ 4294967295) × (self.stack_start + self.stack_size ≤ 4294967295) }
        ensures { result.0 ≡ end_of self k }
    {
        match k {
            Area::Heap => Address(self.heap_start + self.heap_size),
            Area::Stack => Address(self.stack_start + self.stack_size),
            Area::Outside => Address(0),
        }
    }
}
