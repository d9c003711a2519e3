//! The help text.

/// What the program answers to `help`.
pub const HELP: &str = "\
vaultctl: which moments of a project's history does a level keep, and why?
One command to a line. Empty lines and lines that begin with # are passed over.

  level solo N          keep the newest moments: now and the N before it
  level studio N        thin by halves: moments grow sparser with age
  level archive         keep every moment
  new [keep=POLICY]     the same by policy: all, window:N or halving:N

  keeps MOMENT [NOW]    yes or no: is the moment kept?
  first-kept MOMENT [NOW]
                        the first kept moment from this one on, or none
  why MOMENT [NOW]      the rule, worked out for one moment
  kept [NOW]            a picture of all moments, and how many are kept
  help                  this text

Moments are numbers from 0 to 1048575. NOW is the present moment to suppose;
left out, it is the vault's own, which is 0 in a new vault.
A call that is turned down is answered 'refused' with its number and reason,
a line that is no command 'error:' with what is wrong; neither alters anything.
";
