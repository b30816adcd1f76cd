//! Scopes of names (C11 6.2.1).
ghost use Rattle.std.specs.Prelude.{◌≡◌, OnOk, false, is_some};
ghost use Rattle.typing_expressions.specs.Names.{option_at};
ghost use Rattle.typing_expressions.specs.Scene.{scene_of, local_of, scopes_of};
ghost use Rattle.typing_expressions.specs.Names.{found};
ghost use Rattle.typing_declarations.specs.Declarators as spec;

use std::alloc::{AllocError, Global};
use typing_expressions::scene::{LocalName, Scene};
use typing_expressions::table::Table;

/// A scope begins.
#[tactic(auto, using(crate::proofs::InScopes::scopes_pushed))]
pub fn open(alloc: Global, scene: &mut Scene) -> Result<(), AllocError>
    ensures { OnOk result (scene_of scene.new ≡ spec.opened (scene_of scene.old)) }
{
    scene.scopes.push(Table::new(alloc))?;
    Ok(())
}

/// The innermost scope ends.
pub fn close(scene: &mut Scene)
    ensures { scene_of scene.new ≡ spec.closed (scene_of scene.old) }
{
    let _ = scene.scopes.pop();
}

/// Whether the innermost scope has the name.
pub fn is_taken(scene: &Scene, name: &[u8]) -> bool
    ensures { result ≡ spec.is_taken (scene_of scene.now) name.now }
{
    match scene.scopes.last() {
        None => false,
        Some(scope) => scope.get(name).is_some(),
    }
}

/// Adds a name to the innermost scope, which does not have it.
pub fn add_name(
    alloc: Global,
    scene: &mut Scene,
    name: &[u8],
    local: LocalName,
) -> Result<(), AllocError>
    requires { spec.is_taken (scene_of scene.old) name.now ≡ false }
    ensures { OnOk result (scene_of scene.new ≡ spec.named (scene_of scene.old) name.now (local_of local)) }
{
    match scene.scopes.pop() {
        None => {
            let mut scope = Table::new(alloc);
            scope.insert(alloc, name, local)?;
            scene.scopes.push(scope)?;
            Ok(())
        }
        Some(found) => {
            let mut scope = found;
            scope.insert(alloc, name, local)?;
            scene.scopes.push(scope)?;
            Ok(())
        }
    }
}
