//! The worked cases, computed from the definitions: the nights of docs/RULES.md, single steps of an
//! agent, sheets, images, texts.
ghost use Rattle.std.specs.Prelude.{◌≡◌, true};
ghost use Rattle.model_base.specs.Finite.{every};
ghost use Rattle.model_network.specs.Nights.{AllHold as NightsHold, nights};
ghost use Rattle.model_cases.specs.Further.{further_nights};
ghost use Rattle.model_cases.specs.Quiet.{quiet_nights};
ghost use Rattle.model_dispatch.specs.Nights.{AllHold as PicksHold, nights as pick_nights};
ghost use Rattle.model_cases.specs.Dispatched.{dispatched_nights};
ghost use Rattle.theorems_isolation.specs.Nights.{AllHold as PairsHold, nights as pairs};
ghost use Rattle.model_agent.specs.Cases.{all_hold as steps_hold, step_cases};
ghost use Rattle.model_sheet.specs.Cases.{case_holds as sheet_holds, cases as sheet_cases};
ghost use Rattle.model_editions.specs.Cases.{case_holds as turn_holds, cases as turn_cases, put_holds as turn_put_holds, puts as turn_puts};
ghost use Rattle.model_little.specs.Cases.{case_holds as little_holds, cases as little_cases, put_holds as little_put_holds, puts as little_puts};
ghost use Rattle.model_text.specs.Cases.{TextsRead, RecordsEnd, FaultsSaid, SheetsTold, AllPrinted};
ghost use Rattle.model_season.specs.Cases.{NightsEnd};
ghost use Rattle.season_text.specs.Cases.{AllPrint};
ghost use Rattle.promises.specs.Nights.{MarkedNights};
ghost use Rattle.promises.specs.Claims.{FirstWorked, FormsWorked};

/// The nights marked P in docs/RULES.md, as one claim, with the text that `dock` prints of P9; then
/// further nights under rule 1 and under the quiet rule.
pub fn nights()
    ensures marked { MarkedNights }
    ensures first { NightsHold nights }
    ensures further { NightsHold further_nights }
    ensures quiet { NightsHold quiet_nights }
{}

/// Nights of the dispatcher.
pub fn dispatched()
    ensures first { PicksHold pick_nights }
    ensures further { PicksHold dispatched_nights }
{}

/// Pairs of networks alike in one agent.
pub fn pairs()
    ensures alike { PairsHold pairs }
{}

/// Single steps of one agent: each branch of each rule.
pub fn steps()
    ensures steps { steps_hold step_cases ≡ true }
{}

/// Sheets of both editions: every fault, and the order of the checks.
pub fn sheets()
    ensures sheets { every sheet_holds sheet_cases ≡ true }
{}

/// Sheets turned into the other edition, and the buffers that they are put into.
pub fn editions()
    ensures turned { every turn_holds turn_cases ≡ true }
    ensures put { every turn_put_holds turn_puts ≡ true }
{}

/// Little sheets, byte by byte, and the buffers that they are put into.
pub fn little()
    ensures sheets { every little_holds little_cases ≡ true }
    ensures put { every little_put_holds little_puts ≡ true }
{}

/// Texts read and told, and each fault with its words.
pub fn texts()
    ensures read { TextsRead }
    ensures records { RecordsEnd }
    ensures faults { FaultsSaid }
    ensures told { SheetsTold }
    ensures printed { AllPrinted }
{}

/// What the first nights come to, and what `season` prints of them.
pub fn seasons()
    ensures outcomes { NightsEnd }
    ensures printed { AllPrint }
{}

/// P9's image after two rounds, and after three rounds in both forms, worked out by hand; and bytes
/// near them that are no image.
pub fn images()
    ensures first { FirstWorked }
    ensures forms { FormsWorked }
{}
