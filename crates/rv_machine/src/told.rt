//! What an instruction tells, read before it is done.
ghost use Rattle.std.specs.Prelude.{◌≡◌, ◌==◌, ◌<◌, ◌≤◌, [], ◌∷◌, if◌then◌else◌};
ghost use Rattle.rv_code.specs.Code.{Fits};
ghost use Rattle.rv_machine.specs.Events.{told_list};

use crate::access::trap_of;
use crate::core_step::Core;
use crate::events::Told;
use bb_watch::event::Event;
use bb_words::word::Word;
use rv_code::instr::Instr;
use size_table::memory_map::{TABLE_START, TEXT_START};

impl Core {
    ghost use Rattle.std.specs.Prelude.{◌≡◌, ◌==◌, ◌<◌, ◌≤◌, [], ◌∷◌, if◌then◌else◌};
    ghost use Rattle.bb_watch.specs.declared.event.Event.TheVariants.{Access, Call};
    ghost use Rattle.rv_code.specs.Code.{Fits};
    ghost use Rattle.rv_machine.specs.State.{Core as CoreState};
    ghost use Rattle.rv_machine.specs.Events.{told_by, told_list};
    ghost use Rattle.rv_machine.specs.Instruction.{address, access_trap, unless_trap, jumps, effect, event_of, core_step, core_events};

    /// What the next instruction tells, or that it asks the environment.
    #[tactic(auto, unfolding(crate::specs::Instruction::core_step, crate::specs::Instruction::core_events))]
    pub(crate) fn told(&self) -> Told
        ensures { told_list result ≡ told_by (core_step self.now) (core_events self.now) }
    {
        let pc = self.pc();
        if pc < TEXT_START || pc >= TABLE_START {
            return Told::Nothing;
        }
        match self.instruction() {
            None => Told::Nothing,
            Some(instr) => self.told_at(instr),
        }
    }

    // What an instruction tells.
    fn told_at(&self, instr: Instr) -> Told
        requires { Fits instr }
        ensures { told_list result ≡ told_by (effect instr self.now) (event_of instr self.now) }
    {
        match instr {
            Instr::Lui { rd, imm } => told_if(rd == 0, Event::Line { line: imm / 0x1000 }),
            Instr::Add { rd, rs1, rs2 } => {
                let (from, to) = (self.register(rs1), self.register(rs2));
                let pc = self.pc();
                told_if(rd == 0, Event::Move { pc, from, to })
            }
            Instr::Jal { rd, imm } => self.told_call(rd, Word(self.pc()).add(Word(imm)).0),
            Instr::Jalr { rd, rs1, imm } => {
                let target = 2 * (self.address(rs1, imm) / 2);
                if rd == 0 && rs1 == 1 {
                    let pc = self.pc();
                    told_if(target % 4 == 0, Event::Return { pc, target })
                } else {
                    self.told_call(rd, target)
                }
            }
            Instr::Lb { rs1, imm, .. } => self.told_access(rs1, imm, 1, false),
            Instr::Lbu { rs1, imm, .. } => self.told_access(rs1, imm, 1, false),
            Instr::Lh { rs1, imm, .. } => self.told_access(rs1, imm, 2, false),
            Instr::Lhu { rs1, imm, .. } => self.told_access(rs1, imm, 2, false),
            Instr::Lw { rs1, imm, .. } => self.told_access(rs1, imm, 4, false),
            Instr::Sb { rs1, imm, .. } => self.told_access(rs1, imm, 1, true),
            Instr::Sh { rs1, imm, .. } => self.told_access(rs1, imm, 2, true),
            Instr::Sw { rs1, imm, .. } => self.told_access(rs1, imm, 4, true),
            Instr::Ecall => Told::Asks,
            _ => Told::Nothing,
        }
    }

    // What a jump to an address tells that leaves its return address in rd.
    fn told_call(&self, rd: u8, target: u32) -> Told
        ensures { (core : CoreState) → told_list result ≡ told_by (jumps target core) (if rd == 1 then Call self.now.pc target ∷ [] else []) }
    {
        let pc = self.pc();
        told_if(rd == 1 && target % 4 == 0, Event::Call { pc, target })
    }

    // What an access tells.
    fn told_access(&self, base: u8, imm: u32, size: u8, write: bool) -> Told
        requires base { base < 32 }
        requires size { (0 < size) × (size ≤ 4) }
        ensures { (core : CoreState) → told_list result ≡ told_by (unless_trap (access_trap (address self.now base imm) size) core)
            (Access self.now.pc (address self.now base imm) size write base ∷ []) }
    {
        let (pc, at) = (self.pc(), self.address(base, imm));
        match trap_of(at, u32::from(size)) {
            Some(_) => Told::Nothing,
            None => Told::Happens(Event::Access {
                pc,
                at,
                size,
                write,
                base,
            }),
        }
    }
}

// An event, if it comes.
fn told_if(comes: bool, event: Event) -> Told
    ensures { told_list result ≡ Some (if comes then event ∷ [] else []) }
{
    if comes {
        Told::Happens(event)
    } else {
        Told::Nothing
    }
}
