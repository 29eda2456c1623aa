ghost use Rattle.spte_words.specs.Laws.{LeavesTell, LinksTell, OthersTell, KindsDiffer, WriteIsOneBit, ChildrenAreLeaves, ChildrenMapAlike};
ghost use Rattle.spte_words.specs.Laws.{SpansNest, ExampleEntries};
ghost use Rattle.spte_words.specs.Laws.{HostWordsTell, FirstHostWords, FlagsTell, AreasFollow, PlacesDiffer, PlacesFill, PlacesFit};
ghost use Rattle.spte_words.specs.Laws.{ContentIndicesDiffer, PoolIndicesDiffer, ExamplePlaces};

/// Law: each reader of an entry gives back what the entry was made of, entries
/// of different kinds are different words, and write, children and spans are
/// what they should be. The last clause is three entries as numbers.
pub fn entries_tell_what_they_are()
    ensures leaves { LeavesTell }
    ensures links { LinksTell }
    ensures others { OthersTell }
    ensures differ { KindsDiffer }
    ensures write { WriteIsOneBit }
    ensures children { ChildrenAreLeaves }
    ensures children_map { ChildrenMapAlike }
    ensures spans { SpansNest }
    ensures examples { ExampleEntries }
{}

/// Law: each reader of a host word or of a slot's flags gives back what the
/// word was made of.
pub fn host_words_and_flags_tell_what_they_are()
    ensures host { HostWordsTell }
    ensures first { FirstHostWords }
    ensures flags { FlagsTell }
{}

/// Law: the areas follow one another, each word below the total is the place
/// of one word of one area, and so are indices in Content and Pool. The last
/// clause is three places of one map as numbers.
pub fn places_are_apart()
    ensures follow { AreasFollow }
    ensures differ { PlacesDiffer }
    ensures fill { PlacesFill }
    ensures fit { PlacesFit }
    ensures content { ContentIndicesDiffer }
    ensures pool { PoolIndicesDiffer }
    ensures examples { ExamplePlaces }
{}
