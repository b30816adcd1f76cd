//! The registers, the program counter and the memory, and the instructions on them.
ghost use Rattle.std.specs.Prelude.{◌≡◌, ◌+◌, ◌*◌, ◌/◌, ◌%◌, ◌<◌, ◌≤◌, ◌^◌};
ghost use Rattle.std.specs.Prelude.{Bool, List, [], ◌∷◌, length, slice_index, vec_len, IfOk, IfSome};
ghost use Rattle.std.specs.Int.{to_le_bytes, w16, w32};
ghost use Rattle.rv_code.specs.Bits.{extended};
ghost use Rattle.rv_code.specs.Code.{Fits};
ghost use Rattle.rv_image.specs.Rules.{IsImage};
ghost use Rattle.rv_machine.specs.Start.{start_memory};
ghost use Rattle.size_table.specs.declared.memory_map.TheConstants.{MEMORY_END};

use crate::access::{signed_byte, signed_half, trap_of};
use crate::memory::{Memory, half_at, word_at, write_bytes, write_table, write_words, zeros};
use crate::stop::{Effect, Pause};
use bb_words::kinds::TrapKind;
use bb_words::word::Word;
use rv_code::decode::decode;
use rv_code::instr::Instr;
use rv_image::image::Image;
use size_table::memory_map::{GLOBALS_START, TABLE_START, TEXT_START};
use std::alloc::{AllocError, Global};
use std::marker::Model;

// Where the size table's bytes for the global blocks begin: it has one for 16 bytes.
const FIRST_ENTRY: usize = 0x2A_0000;

// The bytes of the memory at the start of an image.
#[tactic(auto, unfolding(crate::specs::Start::start_memory))]
fn start_bytes(alloc: Global, image: &Image) -> Result<Vec<u8>, AllocError>
    requires { IsImage image.now }
    ensures items { IfOk result (λ memory. memory.items ≡ start_memory image.now) }
    ensures len { IfOk result (λ memory. vec_len memory ≡ MEMORY_END) }
{
    let mut memory = zeros(alloc)?;
    write_words(&mut memory, TEXT_START as usize, image.text.as_slice());
    write_table(&mut memory, FIRST_ENTRY, image.globals.as_slice());
    write_bytes(
        &mut memory,
        GLOBALS_START as usize,
        image.initial.as_slice(),
    );
    Ok(memory)
}

/// The machine without its environment.
#[derive(Drop)]
pub struct Core {
    // The program counter, as a number of words.
    place: u32,
    registers: Vec<u32>,
    memory: Memory,
}

impl Model for Core {
    ghost use Rattle.std.specs.Prelude.{◌≡◌, ◌*◌, ◌<◌, vec_len};
    ghost use Rattle.rv_machine.specs.State.{Core as CoreState};

    ghost Value = { CoreState };

    ghost view = { λ c. record { pc = 4 * c.place; registers = c.registers.items; memory = c.memory } };

    ghost invariant = { λ c. (vec_len c.registers ≡ 32) × (c.place < 1073741824) };
}

impl Core {
    ghost use Rattle.size_table.specs.declared.memory_map.TheConstants.{TABLE_START, MEMORY_END};
    ghost use Rattle.size_table.specs.Blocks.{Block, IsBlock, block_at};
    ghost use Rattle.size_table.specs.Made.{made, ended};
    ghost use Rattle.size_table.specs.Memory.{half_at, word_at};
    ghost use Rattle.rv_machine.specs.State.{register_of, set_register, next, gives, with_memory};
    ghost use Rattle.rv_machine.specs.Instruction.{address, loads, stores, jumps, links, branches, effect, core_step, instruction_at, Does};
    ghost use Rattle.rv_machine.specs.Start.{start};
    ghost use Rattle.rv_machine.specs.State.{Frames};
    ghost use Rattle.rv_machine.specs.Machine.{steps};
    ghost use Rattle.rv_machine.specs.Runs.{Shown, Ran, Paused, running};

    /// The core at the start of an image. It takes all memory that the machine ever needs.
    #[tactic(auto, unfolding(crate::specs::Start::start))]
    pub(crate) fn new(alloc: Global, image: &Image) -> Result<Core, AllocError>
        requires { IsImage image.now }
        ensures { IfOk result (λ core. core ≡ (start image.now).core) }
    {
        let bytes = start_bytes(alloc, image)?;
        let memory = Memory::new(alloc, bytes, image.text.len())?;
        let mut registers = vec![in alloc; 0u32; 32]?;
        registers[2] = GLOBALS_START;
        registers[31] = TABLE_START;
        Ok(Core {
            place: image.entry / 4,
            registers,
            memory,
        })
    }

    pub(crate) fn pc(&self) -> u32
        ensures { result ≡ self.now.pc }
    {
        4 * self.place
    }

    pub(crate) fn register(&self, at: u8) -> u32
        requires { at < 32 }
        ensures { result ≡ register_of self.now at }
    {
        self.registers[at as usize]
    }

    pub(crate) fn byte(&self, at: u32) -> u8
        requires { at < MEMORY_END }
        ensures { result ≡ slice_index self.now.memory at }
    {
        self.memory.bytes()[at as usize]
    }

    /// At most n instructions, up to one that is trapped or asks the environment.
    pub(crate) fn go(mut self, n: u64) -> (Core, Pause)
        ensures ran { (frames : Frames) (heap : List Block) (o : Shown)
            → Ran (steps result.1.went) (running self frames heap) o (running result.0 frames heap) o }
        ensures pause { Paused result.1.effect n result.1.went result.0 }
    {
        let mut went = 0;
        while went < n {
            let (core, more) = self.go_decoded(n - went);
            self = core;
            went += more;
            if went >= n {
                let effect = Effect::Went;
                return (self, Pause { went: n, effect });
            }
            match self.step() {
                Effect::Went => went += 1,
                Effect::Trapped { kind } => {
                    let effect = Effect::Trapped { kind };
                    return (self, Pause { went, effect });
                }
                Effect::Asked => {
                    let effect = Effect::Asked;
                    return (self, Pause { went, effect });
                }
            }
        }
        let effect = Effect::Went;
        (self, Pause { went: n, effect })
    }

    // At most n instructions of those that are decoded, up to one that does not go: how many went.
    //
    // The core is taken and given back, so that the loop has a copy of its own: its program counter stays in a register,
    // and no write to the memory can reach it or the registers. It is one function for all sources and sinks.
    #[inline(never)]
    fn go_decoded(mut self, n: u64) -> (Core, u64)
        ensures ran { (frames : Frames) (heap : List Block) (o : Shown) → Ran (steps result.1) (running self frames heap) o (running result.0 frames heap) o }
        ensures within { result.1 ≤ n }
    {
        for went in 0..n {
            match self.memory.decoded(self.place) {
                None => return (self, went),
                Some(instr) => match self.execute(instr) {
                    Effect::Went => {}
                    Effect::Trapped { .. } => return (self, went),
                    Effect::Asked => return (self, went),
                },
            }
        }
        (self, n)
    }

    /// One instruction, up to a question to the environment.
    #[inline(always)]
    #[tactic(auto, unfolding(crate::specs::Instruction::core_step))]
    fn step(&mut self) -> Effect
        ensures does { Does self.old self.new result (core_step self.old) }
        ensures in_text { result ≡ Effect.Asked → self.new.pc < TABLE_START }
    {
        let pc = self.pc();
        if pc < TEXT_START || pc >= TABLE_START {
            return Effect::Trapped {
                kind: TrapKind::Fetch,
            };
        }
        match decode(Word(word_at(self.memory.bytes(), self.pc() as usize))) {
            None => Effect::Trapped {
                kind: TrapKind::Illegal,
            },
            Some(instr) => self.execute(instr),
        }
    }

    /// The instruction at the program counter, if its word is that of one.
    pub(crate) fn instruction(&self) -> Option<Instr>
        requires { self.now.pc < TABLE_START }
        ensures value { result ≡ instruction_at self.now }
        ensures fits { IfSome result Fits }
    {
        decode(Word(word_at(self.memory.bytes(), self.pc() as usize)))
    }

    // The table of the instructions, a row for each.
    #[inline(always)]
    fn execute(&mut self, instr: Instr) -> Effect
        requires fit { Fits instr }
        requires in_text { self.old.pc < TABLE_START }
        ensures { Does self.old self.new result (effect instr self.old) }
    {
        match instr {
            Instr::Lui { rd, imm } => self.put(rd, Word(imm)),
            Instr::Auipc { rd, imm } => self.put(rd, Word(self.pc()).add(Word(imm))),
            Instr::Jal { rd, imm } => self.link(rd, Word(self.pc()).add(Word(imm)).0),
            Instr::Jalr { rd, rs1, imm } => self.link(rd, 2 * (self.address(rs1, imm) / 2)),
            Instr::Beq { rs1, rs2, imm } => {
                let (left, right) = (self.register(rs1), self.register(rs2));
                self.branch(left == right, imm)
            }
            Instr::Bne { rs1, rs2, imm } => {
                let (left, right) = (self.register(rs1), self.register(rs2));
                self.branch(left != right, imm)
            }
            Instr::Blt { rs1, rs2, imm } => {
                let (left, right) = (self.register(rs1), self.register(rs2));
                self.branch(left.cast_signed() < right.cast_signed(), imm)
            }
            Instr::Bge { rs1, rs2, imm } => {
                let (left, right) = (self.register(rs1), self.register(rs2));
                self.branch(left.cast_signed() >= right.cast_signed(), imm)
            }
            Instr::Bltu { rs1, rs2, imm } => {
                let (left, right) = (self.register(rs1), self.register(rs2));
                self.branch(left < right, imm)
            }
            Instr::Bgeu { rs1, rs2, imm } => {
                let (left, right) = (self.register(rs1), self.register(rs2));
                self.branch(left >= right, imm)
            }
            Instr::Lb { rd, rs1, imm } => self.load_signed_byte(rd, self.address(rs1, imm)),
            Instr::Lh { rd, rs1, imm } => self.load_signed_half(rd, self.address(rs1, imm)),
            Instr::Lw { rd, rs1, imm } => self.load_word(rd, self.address(rs1, imm)),
            Instr::Lbu { rd, rs1, imm } => self.load_byte(rd, self.address(rs1, imm)),
            Instr::Lhu { rd, rs1, imm } => self.load_half(rd, self.address(rs1, imm)),
            Instr::Sb { rs1, rs2, imm } => self.store_byte(
                self.address(rs1, imm),
                self.register(rs2),
            ),
            Instr::Sh { rs1, rs2, imm } => self.store_half(
                self.address(rs1, imm),
                self.register(rs2),
            ),
            Instr::Sw { rs1, rs2, imm } => self.store_word(
                self.address(rs1, imm),
                self.register(rs2),
            ),
            Instr::Addi { rd, rs1, imm } => self.put(rd, self.word(rs1).add(Word(imm))),
            Instr::Slti { rd, rs1, imm } => self.put(rd, self.word(rs1).lts(Word(imm))),
            Instr::Sltiu { rd, rs1, imm } => self.put(rd, self.word(rs1).ltu(Word(imm))),
            Instr::Xori { rd, rs1, imm } => self.put(rd, Word(self.register(rs1) ^ imm)),
            Instr::Ori { rd, rs1, imm } => self.put(rd, Word(self.register(rs1) | imm)),
            Instr::Andi { rd, rs1, imm } => self.put(rd, Word(self.register(rs1) & imm)),
            Instr::Slli { rd, rs1, imm } => self.put(rd, self.word(rs1).shl(Word(imm))),
            Instr::Srli { rd, rs1, imm } => self.put(rd, self.word(rs1).shr(Word(imm))),
            Instr::Srai { rd, rs1, imm } => self.put(rd, self.word(rs1).sar(Word(imm))),
            Instr::Add { rd, rs1, rs2 } => self.put(rd, self.word(rs1).add(self.word(rs2))),
            Instr::Sub { rd, rs1, rs2 } => self.put(rd, self.word(rs1).sub(self.word(rs2))),
            Instr::Sll { rd, rs1, rs2 } => self.put(rd, self.word(rs1).shl(self.word(rs2))),
            Instr::Slt { rd, rs1, rs2 } => self.put(rd, self.word(rs1).lts(self.word(rs2))),
            Instr::Sltu { rd, rs1, rs2 } => self.put(rd, self.word(rs1).ltu(self.word(rs2))),
            Instr::Srl { rd, rs1, rs2 } => self.put(rd, self.word(rs1).shr(self.word(rs2))),
            Instr::Sra { rd, rs1, rs2 } => self.put(rd, self.word(rs1).sar(self.word(rs2))),
            Instr::Xor { rd, rs1, rs2 } => self.put(
                rd,
                Word(self.register(rs1) ^ self.register(rs2)),
            ),
            Instr::Or { rd, rs1, rs2 } => self.put(
                rd,
                Word(self.register(rs1) | self.register(rs2)),
            ),
            Instr::And { rd, rs1, rs2 } => self.put(
                rd,
                Word(self.register(rs1) & self.register(rs2)),
            ),
            Instr::Mul { rd, rs1, rs2 } => self.put(rd, self.word(rs1).mul(self.word(rs2))),
            Instr::Mulh { rd, rs1, rs2 } => self.put(rd, self.word(rs1).mulh(self.word(rs2))),
            Instr::Mulhsu { rd, rs1, rs2 } => self.put(rd, self.word(rs1).mulhsu(self.word(rs2))),
            Instr::Mulhu { rd, rs1, rs2 } => self.put(rd, self.word(rs1).mulhu(self.word(rs2))),
            Instr::Div { rd, rs1, rs2 } => self.put(rd, self.word(rs1).div(self.word(rs2))),
            Instr::Divu { rd, rs1, rs2 } => self.put(rd, self.word(rs1).divu(self.word(rs2))),
            Instr::Rem { rd, rs1, rs2 } => self.put(rd, self.word(rs1).rem(self.word(rs2))),
            Instr::Remu { rd, rs1, rs2 } => self.put(rd, self.word(rs1).remu(self.word(rs2))),
            Instr::Fence { .. } => {
                self.pass();
                Effect::Went
            }
            Instr::Ecall => Effect::Asked,
            Instr::Ebreak => Effect::Trapped {
                kind: TrapKind::Break,
            },
        }
    }

    fn word(&self, at: u8) -> Word
        requires { at < 32 }
        ensures { result.0 ≡ register_of self.now at }
    {
        Word(self.registers[at as usize])
    }

    // A register plus an immediate.
    pub(crate) fn address(&self, rs1: u8, imm: u32) -> u32
        requires { rs1 < 32 }
        ensures { result ≡ address self.now rs1 imm }
    {
        self.word(rs1).add(Word(imm)).0
    }

    // A register gets a value.
    fn put(&mut self, rd: u8, value: Word) -> Effect
        requires within { rd < 32 }
        requires in_text { self.old.pc < TABLE_START }
        ensures went { result ≡ Effect.Went }
        ensures value { self.new ≡ gives rd value.0 self.old }
    {
        self.give(rd, value.0);
        Effect::Went
    }

    fn jump(&mut self, to: u32) -> Effect
        ensures { Does self.old self.new result (jumps to self.old) }
    {
        if to % 4 != 0 {
            return Effect::Trapped {
                kind: TrapKind::Fetch,
            };
        }
        self.place = to / 4;
        Effect::Went
    }

    // A jump that leaves the address of the next instruction in a register.
    fn link(&mut self, rd: u8, to: u32) -> Effect
        requires within { rd < 32 }
        requires in_text { self.old.pc < TABLE_START }
        ensures { Does self.old self.new result (links rd to self.old) }
    {
        let next = self.pc() + 4;
        let effect = self.jump(to);
        if effect == Effect::Went {
            self.set(rd, next);
        }
        effect
    }

    fn branch(&mut self, taken: bool, imm: u32) -> Effect
        requires { self.old.pc < TABLE_START }
        ensures { Does self.old self.new result (branches taken imm self.old) }
    {
        if taken {
            self.jump(Word(self.pc()).add(Word(imm)).0)
        } else {
            self.pass();
            Effect::Went
        }
    }

    fn load_signed_byte(&mut self, rd: u8, at: u32) -> Effect
        requires within { rd < 32 }
        requires in_text { self.old.pc < TABLE_START }
        ensures { Does self.old self.new result (loads rd at 1 (extended 8 (slice_index self.old.memory at)) self.old) }
    {
        match trap_of(at, 1) {
            Some(kind) => Effect::Trapped { kind },
            None => {
                let value = signed_byte(self.memory.bytes()[at as usize]);
                self.put(rd, Word(value))
            }
        }
    }

    fn load_signed_half(&mut self, rd: u8, at: u32) -> Effect
        requires within { rd < 32 }
        requires in_text { self.old.pc < TABLE_START }
        ensures { Does self.old self.new result (loads rd at 2 (extended 16 (half_at self.old.memory at)) self.old) }
    {
        match trap_of(at, 2) {
            Some(kind) => Effect::Trapped { kind },
            None => {
                let value = signed_half(half_at(self.memory.bytes(), at as usize));
                self.put(rd, Word(value))
            }
        }
    }

    fn load_word(&mut self, rd: u8, at: u32) -> Effect
        requires within { rd < 32 }
        requires in_text { self.old.pc < TABLE_START }
        ensures { Does self.old self.new result (loads rd at 4 (word_at self.old.memory at) self.old) }
    {
        match trap_of(at, 4) {
            Some(kind) => Effect::Trapped { kind },
            None => {
                let value = word_at(self.memory.bytes(), at as usize);
                self.put(rd, Word(value))
            }
        }
    }

    fn load_byte(&mut self, rd: u8, at: u32) -> Effect
        requires within { rd < 32 }
        requires in_text { self.old.pc < TABLE_START }
        ensures { Does self.old self.new result (loads rd at 1 (slice_index self.old.memory at) self.old) }
    {
        match trap_of(at, 1) {
            Some(kind) => Effect::Trapped { kind },
            None => {
                let value = self.memory.bytes()[at as usize] as u32;
                self.put(rd, Word(value))
            }
        }
    }

    fn load_half(&mut self, rd: u8, at: u32) -> Effect
        requires within { rd < 32 }
        requires in_text { self.old.pc < TABLE_START }
        ensures { Does self.old self.new result (loads rd at 2 (half_at self.old.memory at) self.old) }
    {
        match trap_of(at, 2) {
            Some(kind) => Effect::Trapped { kind },
            None => {
                let value = half_at(self.memory.bytes(), at as usize) as u32;
                self.put(rd, Word(value))
            }
        }
    }

    fn store_byte(&mut self, at: u32, value: u32) -> Effect
        requires { self.old.pc < TABLE_START }
        ensures { Does self.old self.new result (stores at 1 (value % 256 ∷ []) self.old) }
    {
        match trap_of(at, 1) {
            Some(kind) => Effect::Trapped { kind },
            None => {
                self.memory.put_byte(at, (value % 256) as u8);
                self.pass();
                Effect::Went
            }
        }
    }

    fn store_half(&mut self, at: u32, value: u32) -> Effect
        requires { self.old.pc < TABLE_START }
        ensures { Does self.old self.new result (stores at 2 (to_le_bytes w16 (value % 65536)) self.old) }
    {
        match trap_of(at, 2) {
            Some(kind) => Effect::Trapped { kind },
            None => {
                let bytes = ((value % 65536) as u16).to_le_bytes();
                self.memory.put_bytes(at, &bytes);
                self.pass();
                Effect::Went
            }
        }
    }

    fn store_word(&mut self, at: u32, value: u32) -> Effect
        requires { self.old.pc < TABLE_START }
        ensures { Does self.old self.new result (stores at 4 (to_le_bytes w32 value) self.old) }
    {
        match trap_of(at, 4) {
            Some(kind) => Effect::Trapped { kind },
            None => {
                let bytes = value.to_le_bytes();
                self.memory.put_bytes(at, &bytes);
                self.pass();
                Effect::Went
            }
        }
    }

    /// A register gets a value, and the next instruction comes.
    pub(crate) fn give(&mut self, rd: u8, value: u32)
        requires within { rd < 32 }
        requires in_text { self.old.pc < TABLE_START }
        ensures { self.new ≡ gives rd value self.old }
    {
        self.set(rd, value);
        self.place += 1;
    }

    // A register gets a value; register 0 stays 0.
    fn set(&mut self, rd: u8, value: u32)
        requires { rd < 32 }
        ensures { self.new ≡ set_register rd value self.old }
    {
        if rd != 0 {
            self.registers[rd as usize] = value;
        }
    }

    /// The next instruction comes.
    pub(crate) fn pass(&mut self)
        requires { self.old.pc < TABLE_START }
        ensures { self.new ≡ next self.old }
    {
        self.place += 1;
    }

    /// Makes a block: its bytes are zero, and the size table has its exponent.
    #[tactic(auto, unfolding(size_table::specs::Made::made))]
    pub(crate) fn make(&mut self, base: u32, exponent: u8)
        requires { IsBlock 4 (block_at base exponent) }
        ensures { self.new ≡ with_memory (made (block_at base exponent) self.old.memory) self.old }
    {
        self.memory.fill(base as usize, 1 << exponent, 0);
        self.memory.set_in_table(base, exponent);
    }

    /// Ends a block: the size table has 0 for it, and its bytes stay.
    #[tactic(auto, unfolding(size_table::specs::Made::ended))]
    pub(crate) fn end(&mut self, base: u32, exponent: u8)
        requires { IsBlock 4 (block_at base exponent) }
        ensures { self.new ≡ with_memory (ended (block_at base exponent) self.old.memory) self.old }
    {
        self.memory.clear_in_table(base, exponent);
    }
}
