ghost use Rattle.std.specs.Prelude.{◌≡◌, ℕ, List};
ghost use Rattle.sim_base.specs.declared.read_book.ReadNote.{ReadNote};
ghost use Rattle.value_types.specs.declared.shape.Shape.{Shape};
ghost use Rattle.system_model.specs.declared.bound.Bound.{Bound};
ghost use Rattle.system_model.specs.declared.system.System.{System};
ghost use Rattle.system_loading.specs.declared.outline.Outline.{Outline};
ghost use Rattle.system_loading.specs.declared.parameters.GivenBinding.{GivenBinding};
ghost use Rattle.system_loading.specs.Assembly.{Makes};
ghost use Rattle.system_loading.specs.Binding.{Binds};
ghost use Rattle.system_files.specs.declared.loaded.Loaded.{Loaded};
ghost use Rattle.system_files.specs.Files.{AreSteady};
ghost use Rattle.system_files.specs.Order.{Agree, Comes, ComesAlone, Found, Search, asked_with, folders_of};
ghost use Rattle.inlined_answers.specs.Alike.{AreTaken, GiveTheSame, IsMade, SayTheSame};

/// Laws: where two outlines say the same but for the numbers of elements, as that of documents that stand in one another and
/// that of the one document in which each stands in place of its Component, they make the same system, their bindings
/// give the same values, and their FMUs stand in the same folders; so that the files of the one come to what those of the
/// other come to, and what is loaded of them is the same but for the orders of ports.
pub fn inlined_answers()
    ensures system { (o p : Outline) (shapes : List Shape) (system : System) → SayTheSame o p →
        Makes o shapes system → Makes p shapes system }
    ensures bound { (o p : Outline) (shapes : List Shape) (given other : List GivenBinding)
        (bound : Bound) → SayTheSame o p → GiveTheSame given other →
        Binds o shapes given bound → Binds p shapes other bound }
    ensures folders { (directory : List ℕ) (o p : Outline) → SayTheSame o p →
        folders_of directory o ≡ folders_of directory p }
    ensures found { (s : Search) (reads others : List ReadNote) (o p : Outline)
        (shapes : List Shape) (given other : List GivenBinding) (loaded : Loaded) →
        AreTaken s reads o shapes given → IsMade s o shapes given loaded →
        AreTaken s others p shapes other → SayTheSame o p → GiveTheSame given other →
        Comes s others (asked_with s p p.systems.bindings) (Found loaded) }
    ensures loaded { (s : Search) (reads others : List ReadNote) (o p : Outline)
        (shapes : List Shape) (given other : List GivenBinding) (loaded inlined : Loaded)
        (asked : List (List ℕ)) → AreTaken s reads o shapes given → IsMade s o shapes given loaded →
        AreTaken s others p shapes other → SayTheSame o p → GiveTheSame given other →
        AreSteady others → ComesAlone s others asked (Found inlined) →
        Agree (Found inlined) (Found loaded) }
{}
