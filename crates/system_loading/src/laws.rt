//! What holds of what files say.
ghost use Rattle.std.specs.Prelude.{◌≡◌, ℕ, ◌≤◌, List, length};
ghost use Rattle.value_types.specs.declared.shape.Shape.{Shape};
ghost use Rattle.system_model.specs.Shapes.{IsSoundShape};
ghost use Rattle.flatten.specs.Given.{IsWholeTree};
ghost use Rattle.ssd_tree.specs.Named.{IsNamedTree};
ghost use Rattle.system_loading.specs.Outlines.{lone_tree};
ghost use Rattle.system_loading.specs.Readings.{IsModel};

use description_laws::read_shapes;
use doc_grammar::document_laws;

/// Laws: the shape that a description says is sound, has the resolution at which it was read, and a token no longer than
/// the file; the tree of an FMU alone may be flattened and names its parts.
pub fn loading_laws()
    ensures shape { (per_second : ℕ) (bytes : List ℕ) (shape : Shape) →
        IsModel per_second bytes shape → IsSoundShape shape }
    ensures resolution { (per_second : ℕ) (bytes : List ℕ) (shape : Shape) →
        IsModel per_second bytes shape → shape.resolution ≡ per_second }
    ensures token { (per_second : ℕ) (bytes : List ℕ) (shape : Shape) →
        IsModel per_second bytes shape → length shape.token ≤ length bytes }
    ensures lone { IsWholeTree lone_tree }
    ensures lone_named { IsNamedTree lone_tree }
{
    document_laws();
    read_shapes();
}
