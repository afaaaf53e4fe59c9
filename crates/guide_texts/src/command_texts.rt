//! What the program and each command does.
#![tactic(auto)]

/// What the program is, and by which kit it was proved.
pub const VERSION: &str = "famlint, proved by rattle-kit-13f logic dac8208d650f15bf\n";

/// All commands; the options follow.
pub const COMMANDS: &str = "\
usage: famlint COMMAND WORD.. [OPTION..]

  analyse MODEL FILE            the alarms of all variants of a family at once
  invariants MODEL FILE         what is known at each place, and then the alarms
  page MODEL FILE               the same beside the source, as one HTML page
  certify MODEL FILE            what was found, as a certificate
  check MODEL FILE CERTIFICATE  whether a certificate holds
  plain FILE                    the alarms of one file without groups
  project MODEL FILE SETTING..  the text of one variant
  variant MODEL FILE SETTING..  the alarms of one variant
  run MODEL FILE SETTING..      how a run of one variant stands
  advise MODEL FILE SETTING..   the nearest configuration without alarms
  features MODEL                what a model leaves open of each feature
  generate NUMBER               the report on a family that famlint makes
  help COMMAND                  what a command does, and its options
  explain CODE                  what a code means, as F12, or a status, as 4
  --help, --version             this text, and the kit that proved the program

MODEL is a feature model, one JSON object; FILE a C file, with groups (#if ..)
where there is a MODEL; SETTING is NAME=VALUE, or NAME for the value 1.
";

/// What stands before the options that a command takes.
pub const OPTIONS: &str = "
Options, as --NAME=VALUE or --NAME VALUE, each at most once:
";

/// `plain`.
pub const PLAIN: &str = "\
famlint plain FILE

The alarms of one file without groups: a line LINE:COLUMN: KIND for each, and
their number. KIND is overflow, zero-divisor or assertion. An alarm says that
some run may stop there; no run stops where there is none. Status 1 says that
there are alarms, and 0 that no run stops.

Example: famlint plain --overflow=wrap logger.c
";

/// `project`.
pub const PROJECT: &str = "\
famlint project MODEL FILE SETTING..

The text of one variant: FILE without the lines of groups that the settings do
not keep, each line in its place.

Example: famlint project queue.json queue.c FAST RETRY SIZE=4 LIMIT=2
";

/// `variant`.
pub const VARIANT: &str = "\
famlint variant MODEL FILE SETTING..

The alarms of the variant that the settings select, as under plain. Status 1
says that there are alarms, and 0 that no run of the variant stops.

Example: famlint variant queue.json queue.c FAST RETRY SIZE=4 LIMIT=2
";

/// `run`.
pub const RUN: &str = "\
famlint run MODEL FILE SETTING..

How a run of one variant stands after at most so many steps: ended, stopped, or
at a place, with the values of the variables.

Example: famlint run --inputs=1,0,1 queue.json queue.c FAST SIZE=4 LIMIT=2
";

/// `analyse`.
pub const ANALYSE: &str = "\
famlint analyse MODEL FILE

The alarms of all variants at once: lines LINE:COLUMN: KIND if REGION; example
CONFIGURATION, and their number. KIND is overflow, zero-divisor or assertion.
A configuration that meets the region may have a run that stops there; one that
meets none has none. The example is the least configuration that meets it.
Status 1 says that there are alarms, and 0 that no run of any variant stops.

Example: famlint analyse --regions=merged queue.json queue.c
";

/// `invariants`.
pub const INVARIANTS: &str = "\
famlint invariants MODEL FILE

What is known of the variables at each place of all variants: lines
LINE:COLUMN: if REGION: what is known, and then the alarms, as under analyse.

Example: famlint invariants ring.json ring.c
";

/// `page`.
pub const PAGE: &str = "\
famlint page MODEL FILE

One HTML page that needs no network and no other file: the source with its
alarms, what is known at each line, and a switch for each feature, which shows
what a configuration has. It holds MODEL, FILE and what invariants prints of
them. Status 1 says that there are alarms, and 0 that no run of any variant
stops.

Example: famlint page --regions=merged queue.json queue.c > queue.html
";

/// `generate`.
pub const GENERATE: &str = "\
famlint generate NUMBER

The report on a family that famlint makes, of 1 to 2000 blocks: its bytes, its
places, and its alarms, to see how long a family of its size takes.

Example: famlint generate 500
";

/// `certify`.
pub const CERTIFY: &str = "\
famlint certify MODEL FILE

What was found, as a certificate: the invariants of the loops, and the alarms,
by intervals. check tells whether a certificate holds, without the analysis.

Example: famlint certify ring.json ring.c > ring.certificate
";

/// `check`.
pub const CHECK: &str = "\
famlint check MODEL FILE CERTIFICATE

Whether a certificate holds: that each stop of each run of each variant is at a
place, and of a kind, that it lists for the configuration. Status 0 says that
it does, and 1 that this could not be shown.

Example: famlint check ring.json ring.c ring.certificate
";

/// `advise`.
pub const ADVISE: &str = "\
famlint advise MODEL FILE SETTING..

The nearest valid configuration to the one that the settings give at which the
variant has no alarm, and how many features differ; or none, with status 1.

Example: famlint advise queue.json queue.c FAST RETRY
";

/// `features`.
pub const FEATURES: &str = "\
famlint features MODEL

What a model leaves open, over its valid configurations: whether a switch is
free, dead or always on, and the least and the greatest value of a number.

Example: famlint features queue.json
";
