// Which of eight variables are filled, a bit for each.
ghost use Rattle.std.specs.Prelude.{◌≡◌, ℕ, ◌%◌, ◌^◌, ◌<◌, true, false, ◌&&◌, ◌||◌, Decides, MatchOption, ◌==◌, bit_and, nat_lt};
ghost use Rattle.rows.specs.Filled.{is_in, open_count, NoneOpen, FirstOpen};

const MOST_VARIABLES: usize = 8;

// The bits of the first `width` variables.
fn first_bits(width: usize) -> u8
    ensures { (b : ℕ) → b < 256 → bit_and b result ≡ b % 2 ^ width }
{
    if width < MOST_VARIABLES {
        (1 << width) - 1
    } else {
        u8::MAX
    }
}

#[derive(Clone, Copy, Debug, PartialEq, Eq)]
pub struct Filled {
    bits: u8,
}

impl Filled {
    pub fn none() -> Filled
        ensures { (i : ℕ) → is_in result.bits i ≡ false }
    {
        Filled { bits: 0 }
    }

    pub fn is_none(self) -> bool
        ensures { Decides result ((i : ℕ) → is_in self.bits i ≡ false) }
    {
        self.bits == 0
    }

    pub fn has(self, i: usize) -> bool
        ensures { result ≡ is_in self.bits i }
    {
        i < MOST_VARIABLES && (self.bits >> i) & 1 == 1
    }

    // With one more variable; only the first eight can be filled.
    pub fn with(self, i: usize) -> Filled
        ensures { (j : ℕ) → is_in result.bits j ≡ (is_in self.bits j || (i == j && nat_lt i 8)) }
    {
        if i < MOST_VARIABLES {
            Filled {
                bits: self.bits | 1 << i,
            }
        } else {
            self
        }
    }

    // How many of the first `width` variables are open.
    pub fn open_count(self, width: usize) -> usize
        ensures { result ≡ open_count self.bits width }
    {
        // A u32 has no `From` to a usize, here and below.
        width - (self.bits & first_bits(width)).count_ones() as usize
    }

    // The open variable with the smallest number; behind eight filled ones that is the ninth.
    pub fn first_open(self, width: usize) -> Option<usize>
        ensures { MatchOption result (NoneOpen self.bits width) (FirstOpen self.bits width) }
    {
        let first = (!self.bits).trailing_zeros() as usize;
        (first < width).then_some(first)
    }
}
