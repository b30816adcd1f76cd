//! The blocks of a frame.
ghost use Rattle.std.specs.Prelude.{◌≡◌, ◌≤◌};
ghost use Rattle.std.specs.List.{AllByRecursion};
ghost use Rattle.rv_image.specs.Rules.{total_size};
ghost use Rattle.size_table.specs.Made.{all_made, all_ended, blocks_from, AreExponents};
ghost use Rattle.size_table.specs.Blocks.{IsBlock};
ghost use Rattle.rv_machine.specs.State.{with_memory};

use crate::core_step::Core;

/// Makes blocks without gaps from a base on, in order.
pub(crate) fn make_all(core: &mut Core, base: u32, exponents: &[u8])
    requires { AllByRecursion (IsBlock 4) (blocks_from base exponents.now) }
    ensures { core.new ≡ with_memory (all_made (blocks_from base exponents.now) core.old.memory) core.old }
{
    let mut at = base;
    for exponent in exponents {
        core.make(at, *exponent);
        at += 1 << *exponent;
    }
}

/// Ends blocks that lie without gaps from a base on, the last one first.
pub(crate) fn end_all(core: &mut Core, base: u32, exponents: &[u8])
    requires { AllByRecursion (IsBlock 4) (blocks_from base exponents.now) }
    ensures { core.new ≡ with_memory (all_ended (blocks_from base exponents.now) core.old.memory) core.old }
{
    if let [first, rest @ ..] = exponents {
        end_all(core, base + (1 << *first), rest);
        core.end(base, *first);
    }
}

/// How many bytes the blocks have.
pub(crate) fn total_size(exponents: &[u8]) -> u32
    requires exponents { AreExponents exponents.now }
    requires fits { total_size exponents.now ≤ 4194304 }
    ensures { result ≡ total_size exponents.now }
{
    let mut total = 0;
    for exponent in exponents {
        total += 1u32 << *exponent;
    }
    total
}
