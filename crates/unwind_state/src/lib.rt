// What an unwinding step changes, the registers of a frame, by value; and the window of stack words that is lent beside them.
#![tactic(auto)]

ghost use Rattle.std.specs.Prelude.{◌≡◌};
ghost use Rattle.unwind_state.specs.State.{gpr, with_gpr, with_rip, with_xmm_low, with_xmm};
ghost use Rattle.unwind_state.specs.Code.{word_at_of};

// The registers as they are at a stop. General register 4 is RSP. XMM register `n` is the words `2 * n`, the low one, and `2 * n + 1`.
#[repr(C)]
#[derive(Clone, Copy, Debug, PartialEq, Eq)]
pub struct State {
    pub gpr: [u64; 16],
    pub rip: u64,
    pub xmm: [u64; 32],
}

// How many general registers there are, and how many XMM registers.
const REGISTERS: usize = 16;

// What a register past the last is read as.
const NONE: u64 = 0;

// The bytes of a stack word.
const WORD: u64 = 8;

impl State {
    // A general register, 0 for a number past the last.
    pub fn get_gpr(self, register: u8) -> u64
        ensures { result ≡ gpr self register }
    {
        let number = register as usize;
        if number < REGISTERS {
            self.gpr[number]
        } else {
            NONE
        }
    }

    // A number past the last register changes nothing, here and below.
    pub fn with_gpr(mut self, register: u8, value: u64) -> State
        ensures { result ≡ with_gpr self register value }
    {
        let at = register as usize;
        if at < REGISTERS {
            self.gpr[at] = value;
        }
        self
    }

    pub fn with_rip(mut self, value: u64) -> State
        ensures { result ≡ with_rip self value }
    {
        self.rip = value;
        self
    }

    // The low half of an XMM register: its high half stays.
    pub fn with_xmm_low(mut self, register: u8, value: u64) -> State
        ensures { result ≡ with_xmm_low self register value }
    {
        let n = register as usize;
        if n < REGISTERS {
            self.xmm[2 * n] = value;
        }
        self
    }

    pub fn with_xmm(mut self, register: u8, low: u64, high: u64) -> State
        ensures { result ≡ with_xmm self register low high }
    {
        let n = register as usize;
        if n < REGISTERS {
            self.xmm[2 * n] = low;
            self.xmm[2 * n + 1] = high;
        }
        self
    }
}

// Stack words, the first at `base`, each 8 bytes above the one before.
#[derive(Clone, Copy)]
pub struct StackWindow<'a> {
    pub words: &'a [u64],
    pub base: u64,
}

impl<'a> StackWindow<'a> {
    // The word at an address, if the window holds it.
    pub fn word_at(self, address: u64) -> Option<u64>
        ensures { result ≡ word_at_of self.entry.words.now self.entry.base address }
    {
        if self.base % WORD != 0 || address % WORD != 0 {
            return None;
        }
        let place = address.checked_sub(self.base)? / WORD;
        self.words.get(place as usize).copied()
    }
}
