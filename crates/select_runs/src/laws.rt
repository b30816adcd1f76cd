//! The laws of selected code that runs.
ghost use Rattle.select_scope.specs.Frame.{StraightRuns};
ghost use Rattle.select_scope.specs.InReach.{CalmIsInReach, SafeIsInReach};
ghost use Rattle.select_scope.specs.Laws.{ProgramsLand, SelectionRuns};

/// Straight code that stands in a text is done in as many steps as it has instructions. It tells accesses to the control
/// frame alone, and changes nothing but registers and that frame.
pub fn straight_runs()
    ensures { StraightRuns }
{
    rv_machine_laws::laws::word_read_back();
    rv_machine_laws::laws::others_stay();
    rv_machine_laws::laws::core_stays();
}

/// A machine whose text is the selected code of a program that fits lands for each bound on the turns and nested calls of
/// flat code for which each step that the run comes to is in reach.
pub fn programs_land()
    ensures { ProgramsLand }
{
    straight_runs();
    rv_machine_laws::laws::steps_add();
    rv_machine_laws::laws::core_stays();
    rv_machine_laws::laws::others_stay();
    rv_selected::laws::steps_lead();
    flat_landing::laws::kept_more();
    flat_landing::laws::shared_appends();
    bb_watch::laws::events_append();
    bb_watch::laws::events_happen();
    bb_watch::laws::each_appends();
    bb_watch::laws::open_appends();
    flat_code_laws::laws::tells_append();
    flat_code_laws::laws::live_appends();
    flat_discipline::laws::items_are_steps();
}

/// An image of the selected code of a program that fits runs as its flat code does, if each step that it comes to is in reach.
pub fn selection_runs()
    ensures { SelectionRuns }
{
    programs_land();
    rv_machine_laws::laws::runs_are_formed();
    rv_machine_laws::laws::text_stands();
    rv_machine_laws::laws::pc_is_aligned();
    rv_machine_laws::laws::runs_have_table();
    rv_machine_laws::laws::memory_starts();
    rv_selected::laws::labels_stand_once();
    flat_landing::laws::landings_run();
}

/// Code in which no step looks into the size table, takes an address in the frame, or accesses memory: each of its runs is in
/// reach.
pub fn calm_is_in_reach()
    ensures { CalmIsInReach }
{}

/// A run is in reach if each step that it comes to is safe, and its accesses that are made are to the globals or above.
pub fn safe_is_in_reach()
    ensures { SafeIsInReach }
{}
