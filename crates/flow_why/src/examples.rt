//! Worked witnesses, on shapes of a page.

ghost use Rattle.std.specs.Prelude.{[], ◌∷◌};
ghost use Rattle.flow_graph.specs.Examples.{inner_definition, recursive_procedure};
ghost use Rattle.flow_why.specs.Witnesses.{IsWitness};
ghost use Rattle.flow_why.specs.declared.hop.Effect.TheVariants.{Generates};
ghost use Rattle.flow_why.specs.declared.hop.Hop.TheVariants.{Step, Pass};

/// What a procedure that calls itself defines reaches the point behind its call: the call is passed as a whole. Without the step before it
/// the hops are no witness.
pub fn recursion_examples()
    ensures witness { IsWitness recursive_procedure inner_definition 2 (Step 0 1 ∷ Pass 1 1 1 2 Generates ∷ []) }
    ensures hop_left_out { IsWitness recursive_procedure inner_definition 2 (Pass 1 1 1 2 Generates ∷ []) → ⊥ }
{}
