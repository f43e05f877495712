ghost use Rattle.std.specs.Prelude.{◌≡◌, ℕ, ◌+◌, ◌*◌, ◌<◌, ◌≤◌, length, replicate, slice_index, slice_set, IfOk, IsTrue};
ghost use Rattle.xrf_gated.specs.Slots.{slot_of, bytes_of, block_of, slot_in, with_gate, with_body, plan_of, zero_slot, OpenAreWhole};

use std::alloc::{AllocError, Global};
use std::marker::{Model, PhantomData};

/// The gate byte of an open slot. Every other byte is closed.
pub const OPEN: u8 = 0xc1;

/// A gated slot: its gate byte, and its body behind it.
#[derive(Clone, Copy)]
pub struct Slot {
    pub gate: u8,
    pub body: [u8; 63],
}

impl Slot {
    /// The 64 bytes of the slot.
    pub fn bytes(&self) -> [u8; 64]
        ensures { result ≡ bytes_of self.now }
    {
        let mut bytes = [0; 64];
        self.write(&mut bytes);
        bytes
    }

    // writes the 64 bytes of the slot
    #[inline(always)]
    fn write(&self, into: &mut [u8])
        requires { length into.old ≡ 64 }
        ensures { into.new ≡ bytes_of self.now }
    {
        into[0] = self.gate;
        into[1..].copy_from_slice(&self.body);
    }
}

/// Says which bodies are whole: those that spell a record of the kind that the slots hold.
pub trait BodyRule {
    ghost use Rattle.std.specs.Prelude.{List, ℕ, Bool};

    ghost is_whole: { List ℕ → Bool };

    fn whole(body: &[u8; 63]) -> bool
        ensures { result ≡ is_whole body.now };
}

/// The gated slots of a data set, each open one with a whole body. Its value is the list of its slots.
#[derive(Drop)]
pub struct Slots<B: BodyRule> {
    slots: Vec<Slot>,
    rule: PhantomData<B>,
}

impl<B: BodyRule> Model for Slots<B> {
    ghost use Rattle.std.specs.Prelude.{List};
    ghost use Rattle.xrf_gated.specs.declared.gated.Slot.{Slot};
    ghost use Rattle.xrf_gated.specs.Slots.{OpenAreWhole};

    ghost Value = { List Slot };

    ghost view = { λ slots. slots.slots.items };

    ghost invariant = { λ slots. OpenAreWhole B.is_whole slots.slots.items };
}

impl<B: BodyRule> Slots<B> {
    /// `n` slots, all zero, and so closed.
    pub fn new(alloc: Global, n: usize) -> Result<Slots<B>, AllocError>
        ensures { IfOk result (λ slots. slots ≡ replicate n zero_slot) }
    {
        let zero = Slot {
            gate: 0,
            body: [0; 63],
        };
        let slots = vec![in alloc; zero; n]?;
        Ok(Slots {
            slots,
            rule: PhantomData,
        })
    }

    /// The gate byte of slot `i`.
    pub fn gate(&self, i: usize) -> u8
        requires { i < length self.now }
        ensures { result ≡ (slot_of self.now i).gate }
    {
        self.slots[i].gate
    }

    /// The 64 bytes of slot `i`.
    pub fn slot(&self, i: usize) -> [u8; 64]
        requires { i < length self.now }
        ensures bytes { result ≡ bytes_of (slot_of self.now i) }
        ensures whole { (slot_of self.now i).gate ≡ OPEN → IsTrue (B.is_whole (slot_of self.now i).body) }
    {
        self.slots[i].bytes()
    }

    /// Copies block `b`, which is the 64 slots from slot 64 `b` on.
    pub fn block(&self, b: usize, into: &mut [u8; 4096])
        requires { 64 * b + 64 ≤ length self.now }
        ensures bytes { into.new ≡ block_of self.now b }
        ensures slots { (k : ℕ) → k < 64 → slot_in into.new k ≡ slot_of self.now (64 * b + k) }
    {
        let slots = &self.slots[64 * b..64 * b + 64];
        for (k, slot) in slots.iter().enumerate() {
            slot.write(&mut into[64 * k..64 * k + 64]);
        }
    }

    /// Lands a byte on the gate of slot `i`, in a write that closes it. It may be torn, but it can't
    /// open a closed slot.
    pub fn land_close(&mut self, i: usize, byte: u8)
        requires place { i < length self.old }
        requires was_open { byte ≡ OPEN → (slot_of self.old i).gate ≡ OPEN }
        ensures landed { self.new ≡ with_gate self.old i byte }
        ensures whole { OpenAreWhole B.is_whole self.new }
    {
        let slot = &mut self.slots[i];
        slot.gate = byte;
    }

    /// Lands a body in slot `i`, which is closed. It may be torn.
    pub fn land_body(&mut self, i: usize, bytes: &[u8; 63])
        requires place { i < length self.old }
        requires closed { (slot_of self.old i).gate ≡ OPEN → ⊥ }
        ensures landed { self.new ≡ with_body self.old i bytes.now }
        ensures whole { OpenAreWhole B.is_whole self.new }
    {
        self.slots[i].body = *bytes;
    }

    /// Lands a byte on the gate of slot `i`, in a write that opens it. It opens a whole body alone.
    pub fn land_gate(&mut self, i: usize, byte: u8)
        requires place { i < length self.old }
        requires whole_body { byte ≡ OPEN → IsTrue (B.is_whole (slot_of self.old i).body) }
        ensures landed { self.new ≡ with_gate self.old i byte }
        ensures whole { OpenAreWhole B.is_whole self.new }
    {
        self.slots[i].gate = byte;
    }
}

/// How a write of a record into a slot begins.
#[derive(Clone, Copy, PartialEq, Eq, Debug)]
pub enum GatePlan {
    /// The slot is open: its gate is closed first.
    CloseFirst,
    /// The slot is closed: its body is written at once.
    BodyOnly,
}

/// How a write begins into a slot with this gate: it is closed first exactly where it is open.
pub fn gate_plan(gate: u8) -> GatePlan
    ensures { result ≡ plan_of gate }
{
    if gate == OPEN {
        GatePlan::CloseFirst
    } else {
        GatePlan::BodyOnly
    }
}
