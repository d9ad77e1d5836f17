// A memory that is lent between guards, filled before and looked at afterwards.
// Here, in order: the pattern; the memory: made, lent and filled, its middle, bytes as they were filled.
// Not here: which bytes are to be as they were (leaves).
ghost use Rattle.std.specs.Prelude.{◌≡◌, true, ◌+◌, ◌≤◌};
ghost use Rattle.guards.specs.Pattern.{pattern_at, Filled};

// The byte that stands at a place before a run: no two neighbours alike, and no memory of zeros.
#[tactic(auto, unfolding(crate::specs::Pattern::pattern_at))]
fn pattern(i: usize) -> u8
    ensures { result ≡ pattern_at i }
{
    (i % 251) as u8 + 1
}

// A memory of N bytes; of these so many are lent, with 64 bytes on both sides.
#[derive(Drop)]
pub struct Guarded<const N: usize> {
    pub bytes: [u8; N],
    pub lent: usize,
    ghost room: { lent + 128 ≤ N },
}

impl<const N: usize> Guarded<N> {
    // A memory of zeros, of which nothing is lent yet.
    pub fn new() -> Self
        requires { 128 ≤ N }
        ensures { result.lent ≡ 0 }
    {
        Guarded {
            bytes: [0; N],
            lent: 0,
        }
    }

    // Lends n bytes, or as many as there is room for, and fills these and the guards.
    pub fn lend(&mut self, n: usize) {
        self.lent = n.min(N - 128);
        let bytes = &mut self.bytes[..];
        for i in 0..self.lent + 128 {
            bytes[i] = pattern(i);
        }
    }

    // What is lent.
    pub fn middle(&mut self) -> &mut [u8] {
        let end = 64 + self.lent;
        let bytes = &mut self.bytes;
        let all = &mut bytes[..];
        &mut all[64..end]
    }

    // Whether the bytes from one place to another are as they were filled.
    pub fn intact(&self, from: usize, to: usize) -> bool
        requires { to ≤ N }
        ensures { result ≡ true → Filled self.now.bytes from to }
    {
        for i in from..to {
            if self.bytes[i] != pattern(i) {
                return false;
            }
        }
        true
    }
}
