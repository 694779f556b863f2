// The commands, each with a line of what it does.

pub const HELP: &str =
    "bench reads commands from standard input, one to a line, and answers each with a line:
ok .., refused NUMBER, misuse or syntax. Blank lines and lines that begin with # have no answer.

  new                                            back to the start of the manual stage
  manual inspection|trial|insulation pass|fail   reports a manual signal, in this order
  notice PLACE                                   writes the notice of the failed signal into the journal
  plan main|short PLAN                           sets a plan for the next orders
  ask main|short                                 a plan's cut, cut number, margin and coefficients
  ask main|short I                               a plan's accept number, reject number and offset at observation I
  orders POINTS KIND RULE                        begins the automatic stage: kind 1 full, 2 reduced; stop rule 1 or 2
  journal LENGTH                                 a new journal of so many bytes
  open A0 P E N                                  opens a point: signal, permitted errors, agreement
  level                                          the level to set, the coming observation, the soonest fit
  code C                                         reports a code of the meter
  late                                           ends the settling for want of time
  close PLACE                                    closes a decided point and writes its record
  certificate PLACE                              writes the certificate and ends the verification
  audit                                          what the calls since the orders come to under each stop rule
  dump                                           the journal's bytes in hexadecimal
  read PLACE [END]                               the records of the journal's bytes
  bytes PLACE HEX                                overwrites bytes of the journal
  write PLACE KIND FIELD ..                      writes a record into the journal

PLAN is strengthened, normal, three-step, line-strengthened, line-normal,
  tabled CUT CUTNUMBER MARGIN KT KU PEAK FROM:ACCEPT:REJECT ..
  or truncated CUT CUTNUMBER PLAN
";
