//! What follows of the rows of a pod's side. Each law is the contract of a call that does nothing.
ghost use Rattle.std.specs.Prelude.{◌≡◌, ◌≤◌, ◌↔◌, ◌++◌, List, length, map, true};
ghost use Rattle.std.specs.List.{AllByRecursion, list_all};
ghost use Rattle.np_conns.specs.declared.port_spot.PortSpot.{PortSpot};
ghost use Rattle.np_model.specs.Prelude.{is_well};
ghost use Rattle.np_exposure.specs.Prelude.{AreRowsOf, FirstRowTells, IsEachFirst, IsPossible, are_well, can_be_assumed, exposes, is_hypothetical, meets, mentions, negated, peer_text, rows_of, weight};
ghost use Rattle.np_exposure.specs.declared.exposure_row.ExposureRow.{ExposureRow};
ghost use Rattle.np_exposure.specs.declared.sided_requirement.SidedRequirement.{SidedRequirement};
ghost use Rattle.np_rules.specs.Prelude.{IsAmong, PodSide};
ghost use Rattle.np_rules.specs.declared.stranger.Stranger.{Stranger};

/// Hypothetical pods that meet the same mentioned requirements have the same exposure.
pub fn alike_strangers_have_one_exposure()
    ensures { (side : PodSide) (s t : Stranger) (spot : PortSpot) → is_hypothetical s ≡ true → is_hypothetical t ≡ true →
        AllByRecursion (λ asked. meets asked s ≡ meets asked t) (mentions side) → exposes side s spot ≡ exposes side t spot }
{}

/// A pod's side has one list of rows.
pub fn one_list_of_rows()
    ensures { (side : PodSide) (rows others : List ExposureRow) → AreRowsOf side rows → AreRowsOf side others → rows ≡ others }
{}

/// The list of rows can be told: for every side the function gives the rows of the relation.
pub fn rows_can_be_told()
    ensures { (side : PodSide) → AreRowsOf side (rows_of side) }
{}

/// What is assumed, of requirements that are mentioned and of their negations, is told to be possible exactly where some
/// hypothetical pod meets it.
pub fn possible_assumptions_are_told()
    ensures { (all assumed : List SidedRequirement) → AllByRecursion (λ asked. IsAmong asked (all ++ map negated all)) assumed →
        (can_be_assumed all assumed ≡ true) ↔ IsPossible assumed }
{}

/// Every hypothetical pod meets a row, and the first that it meets has exactly its exposure.
pub fn first_row_tells()
    ensures { (side : PodSide) (rows : List ExposureRow) (s : Stranger) → AreRowsOf side rows → is_hypothetical s ≡ true →
        FirstRowTells side rows s }
{}

/// Each row is the first that some hypothetical pod meets.
pub fn each_row_is_first_for_some()
    ensures { (side : PodSide) (rows : List ExposureRow) → AreRowsOf side rows → IsEachFirst is_hypothetical rows }
{}

/// There are at most as many rows as the weight.
pub fn rows_are_few()
    ensures { (side : PodSide) (rows : List ExposureRow) → AreRowsOf side rows → length rows ≤ weight (mentions side) }
{}

/// The text of requirements that are as the policies have them that are read belongs to no other list of such
/// requirements.
pub fn one_text_has_one_peer()
    ensures { (requirements others : List SidedRequirement) → are_well requirements ≡ true → are_well others ≡ true →
        peer_text requirements ≡ peer_text others → requirements ≡ others }
{}

/// Where all names and words of the lists are well formed, as in every estate that is read, the requirements of rows are
/// such. So their texts tell them.
pub fn requirements_of_read_policies_are_well()
    ensures { (side : PodSide) (rows : List ExposureRow) → is_well side.lists ≡ true → AreRowsOf side rows →
        list_all (λ row. are_well row.requirements) rows ≡ true }
{}
