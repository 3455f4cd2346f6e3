//! Laws of border places. They hold for the sheet of every pattern with its faces and its folding; the
//! functions do nothing, and their contracts are the laws.
ghost use Rattle.ff_borders.specs.Folded.{OfEachFolded, InnerEdgesHaveTwoFaces};
ghost use Rattle.ff_borders.specs.Lying.{OneSideAgrees, EdgesRunAlong, RingFacesLieAside, FlatFacesPart, FoldedFacesMeet};
ghost use Rattle.ff_borders.specs.RingEdges.{RingEdgesDontCross, FacesMeetOnce};
ghost use Rattle.ff_borders.specs.SideFaces.{SidesHavePlaces, SideFacesOverlap, SideFacesHaveCommon};
ghost use Rattle.ff_borders.specs.PlainPlaces.{EdgesHavePlain, PartsInsideHavePlain, SegmentsHavePlain};
ghost use Rattle.ff_borders.specs.Running.{InsideByOnePlace, SharingByOnePlace, SharingAgrees, PlainPlacesTell, WitnessedHold, NoneInsideOwn, SharingHaveNoCommon};
ghost use Rattle.ff_borders.specs.Terms.{MatchingLies, TermsOverlap, TermsDiffer, CreaseFacesOverlap};
ghost use Rattle.ff_borders.specs.FlatSheets.{OneFlatHasTwoFaces, OneFlatCoversOnce, OneFlatStacks, OneFlatStacksAlone};

/// Each edge that isn't a border edge has two different faces.
pub fn inner_edges_have_two_faces()
    ensures { OfEachFolded InnerEdgesHaveTwoFaces }
{}

/// The edges that hold a plain border place run along each other. Each of their faces lies on one side there:
/// the two of a flat edge on different sides, the two of a folded edge on the same.
pub fn faces_lie_aside()
    ensures edges { OfEachFolded EdgesRunAlong }
    ensures sides { OfEachFolded OneSideAgrees }
    ensures faces { OfEachFolded RingFacesLieAside }
    ensures flat { OfEachFolded FlatFacesPart }
    ensures folded { OfEachFolded FoldedFacesMeet }
{}

/// A face has a plain border place inside, or on exactly one of its edges, or neither.
pub fn faces_meet_once()
    ensures edges { OfEachFolded RingEdgesDontCross }
    ensures faces { OfEachFolded FacesMeetOnce }
{}

/// The faces that cover one side of a plain border place have a common place beside it.
pub fn side_faces_have_common()
    ensures places { OfEachFolded SidesHavePlaces }
    ensures two { OfEachFolded SideFacesOverlap }
    ensures three { OfEachFolded SideFacesHaveCommon }
{}

/// Plain border places are on every edge, in every part of an edge inside a face, and in every segment that
/// two edges share.
pub fn plain_places_are_there()
    ensures edges { OfEachFolded EdgesHavePlain }
    ensures inside { OfEachFolded PartsInsideHavePlain }
    ensures shared { OfEachFolded SegmentsHavePlain }
{}

/// One place tells that an edge runs inside a face, or that two edges run along each other. No edge runs
/// inside a face of its own, and none along another edge of it.
pub fn one_place_tells()
    ensures inside { OfEachFolded InsideByOnePlace }
    ensures shared { OfEachFolded SharingByOnePlace }
    ensures agrees { OfEachFolded SharingAgrees }
    ensures plain { OfEachFolded PlainPlacesTell }
    ensures not_own { OfEachFolded NoneInsideOwn }
    ensures no_common { OfEachFolded SharingHaveNoCommon }
{}

/// Places that witness a cite show that it holds.
pub fn witnessed_cites_hold()
    ensures { OfEachFolded WitnessedHold }
{}

/// The terms of a constraint that holds are different pairs of overlapping faces, and the two faces of a
/// crease overlap.
pub fn terms_are_pairs()
    ensures overlap { OfEachFolded TermsOverlap }
    ensures differ { OfEachFolded TermsDiffer }
    ensures matching { OfEachFolded MatchingLies }
    ensures creases { OfEachFolded CreaseFacesOverlap }
{}

/// On a sheet whose only edge inside is flat nothing lies on anything.
pub fn one_flat_edge_stacks()
    ensures faces { OfEachFolded OneFlatHasTwoFaces }
    ensures covers { OfEachFolded OneFlatCoversOnce }
    ensures stacks { OfEachFolded OneFlatStacks }
    ensures alone { OfEachFolded OneFlatStacksAlone }
{}
