// What holds of every list of tokens.
ghost use Rattle.std.specs.Prelude.{◌≡◌, ℕ, false, List, [], ◌∷◌, ◌++◌, Some, codes};
ghost use Rattle.circus_syntax.specs.declared.stopping.Stop.{Stop};
ghost use Rattle.circus_syntax.specs.declared.stopping.StopCause.{StopCause};
ghost use Rattle.circus_syntax.specs.Placed.{Placed, AreTokens};
ghost use Rattle.circus_syntax.specs.Reader.{open_at, place_in, stop_at};
ghost use Rattle.circus_expression.specs.Ending.{Are, IsUnexpected, IsFilledIn};
ghost use Rattle.circus_statement.specs.StatementReading.{is_word};
ghost use Rattle.circus_troupe.specs.declared.deployment_text.DeploymentText.{DeploymentText};
ghost use Rattle.circus_troupe.specs.DeploymentReading.{deployment};
ghost use Rattle.circus_troupe.specs.DeploymentSpelling.{spelling_deployment, IsDeploymentText};

/// A deployment is read to its end, where no token stands behind it.
pub fn deployments_are_read()
    ensures { (all : List Placed) (tree : DeploymentText) (end : ℕ)
        → Are spelling_deployment IsDeploymentText all tree
        → deployment (open_at all end) ≡ (tree, open_at [] end) }
{}

/// Behind a deployment reading stops at a token that begins no troupe, and the tree is that of the deployment.
pub fn stops_behind_a_deployment()
    ensures { (own left : List Placed) (next : Placed) (tree : DeploymentText) (end : ℕ)
        → Are spelling_deployment IsDeploymentText own tree → is_word (codes "TROUPE") next ≡ false
        → deployment (open_at (own ++ next ∷ left) end)
        ≡ (
          tree,
          record {
            rest = next
                ∷ left;
            end = end;
            stop = Some (stop_at StopCause.Unexpected next.start);
          },
        ) }
{}

/// Where reading doesn't stop, no token is left; the tokens are a deployment, and its tree is answered.
pub fn read_is_a_deployment()
    ensures { (all left : List Placed) (tree : DeploymentText) (end : ℕ) → AreTokens all
        → deployment (open_at all end) ≡ (tree, open_at left end)
        → (left ≡ []) × Are spelling_deployment IsDeploymentText all tree }
{}

/// Tokens have one tree.
pub fn one_deployment()
    ensures { (all : List Placed) (tree other : DeploymentText)
        → Are spelling_deployment IsDeploymentText all tree
        → Are spelling_deployment IsDeploymentText all other
        → tree ≡ other }
{}

/// Where reading stops, the tokens so far begin a deployment, and none goes on with the next one; at the end of the text
/// they are none. No level is too many, since none is opened.
pub fn stops_at_the_unexpected()
    ensures { (all left : List Placed) (tree : DeploymentText) (stop : Stop) (end : ℕ)
        → AreTokens all
        → deployment (open_at all end) ≡ (tree, record { rest = left; end = end; stop = Some stop })
        → IsUnexpected spelling_deployment IsDeploymentText all left
        × (stop.place ≡ place_in left end)
        × (stop.cause ≡ StopCause.Unexpected) }
{}

/// Where reading stops, the tree is that of a deployment which the tokens so far begin. What it has besides them stands at
/// the place of the stop.
pub fn a_stop_is_filled_in()
    ensures { (all left : List Placed) (tree : DeploymentText) (stop : Stop) (end : ℕ)
        → AreTokens all
        → deployment (open_at all end) ≡ (tree, record { rest = left; end = end; stop = Some stop })
        → IsFilledIn spelling_deployment IsDeploymentText 0 all left stop.place tree }
{}
