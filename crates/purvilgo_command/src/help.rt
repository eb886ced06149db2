//! The texts that the long help of a command, `purvilgo help COMMAND` or `--help`, prints beside its options: what it
//! reads and writes, its statuses, and an example. The manual page `docs/purvilgo.1` has the same words.

/// Of `purvilgo`.
pub(crate) const PROGRAM_HELP: &str = "\
Reads: standard input.
Writes: the acknowledgement on standard output; on standard error why there is none.
Status: 0 acknowledged; 1 refused or stopped; 2 the arguments are not taken, or help.

Example:
  purvilgo < in/a.v22 > in/a.v22.ack";

/// Of `run`.
pub(crate) const RUN_HELP: &str = "\
In order, the same files give the same bytes each time; else they are decided at once too. In
turn it takes less memory, and is mostly slower. With --no-clobber nothing is read or
written where such a file is there already. Without --from the history begins empty: a
register of --to then takes the place of one that is there, with nothing of it inside.
Without --to the decisions are kept nowhere, and no acknowledgement may be sent.

List: --files-from LIST takes any number of files, in place of FILE. They are in order, in
the order of the list, if not in turn. Each line is a name as it stands, - too, and the last
line may lack its end; with --null each name ends with a NUL, and may have any other byte.
A list with an empty name, or one that is not text, is not taken.

Reads: 1 to 63 files or those of LIST, and the register of --from.
Writes: FILE.ack of each file that is acknowledged, the register of --to, and on standard
output a line for each file, in order and in turn after each 63 of them. Nothing that is
read is written over, and nothing is written twice: where FILE.ack or --to is one file with
another of these or with a FILE, or --from with FILE.ack, the run is refused.
Drafts: FILE.ack.new and REGISTER.new take their names when they are whole, first the
register, then the acknowledgements. Where the register cannot be kept, there are no
new acknowledgements: make the run again. While a run leaves a register, it has
REGISTER.lock locked, and a second one at that register ends at once.
Status: 0 all files acknowledged, and the register kept; 2 the arguments are not taken, or
help; 1 else.

Example:
  purvilgo run --society 007 --name 'MY SOCIETY' --date 20240601 --time 090000 \\
    --from 0041.register --to 0042.register --in-order --no-clobber in/a.v22 in/b.v22
  find in -name '*.v22' -print0 | sort -z | purvilgo run --society 007 \\
    --name 'MY SOCIETY' --date 20240601 --time 090000 --from 0041.register \\
    --to 0042.register --null --files-from -";

/// Of `check`.
pub(crate) const CHECK_HELP: &str = "\
Reads: each FILE, one after another; standard input where FILE is -. In place of FILE those
whose names --files-from LIST has, one a line, or ended by a NUL with --null: there - is a
file of that name.
Writes: on standard output a line for each transaction, or the file's first fault. With
--long some lines for each fault, and none for a transaction without; with --json one
object a file; with --html one page of HTML. Of several files each line begins with the
file's name, or its object has the member file; one that cannot be read stops no other.
Page: of one FILE alone. Each fault stands in its line, with its fields marked. Open it in a
browser; it loads nothing and runs no script. Programs read --json.
Remarks: --long, --json and --html print them too. They are no faults, and leave the status
as it is: a file that begins with a byte order mark, is UTF-16 or gzip, or has a second one
behind it; a CWR version that is not 2.2, another sender type; bytes above 126, a line
past its layout, a record type that CWR 2.2 does not have, territories that are only
excluded.
Status: 0 no fault in any FILE; 2 the arguments are not taken, or help; 1 else.

Example:
  purvilgo check --long in/a.v22
  purvilgo check --html in/a.v22 > a.html";

/// Of `audit`.
pub(crate) const AUDIT_HELP: &str = "\
Reads: REGISTER, or standard input where REGISTER is -.
Writes: on standard output the number of entries, or the first fault; with --json one
object, with entries and fault, of which one is null.
Status: 0 no fault; 2 the arguments are not taken, or help; 1 else.

Example:
  purvilgo audit 0042.register";

/// Of `explain`.
pub(crate) const EXPLAIN_HELP: &str = "\
Rules: F1 to F12 of a file, J1 to J15 of a transaction, G1 to G4 of a register; j8 and J08
are J8, and 011, the number of an MSG record, is J11.
Answers of an acknowledgement: AS, DU, CO, RJ. Without arguments all rules and answers
are printed.
Writes: on standard output some lines for each, in the order of the arguments.
Status: 0 printed; 2 the arguments are not taken (one that is neither, as F13), or help; 1
else.

Example:
  purvilgo explain F9 011 CO";

/// Of `claims`.
pub(crate) const CLAIMS_HELP: &str = "\
Reads: REGISTER, or standard input where REGISTER is -.
Writes: on standard output a header line, and a line for each claim, in the order of the
entries; or the register's first fault.
Columns: submitter, number, work, version, title, iswc, performing, mechanical,
synchronization. The last three are control in hundredths of one per cent. Texts stand as
the register has them, blanks included.
Plain: texts without the blanks behind them, and with an apostrophe before what would be
taken for a formula; control in per cent, as 50.07, in columns named performing_control and
the like.
Where no claim matches --work, --submitter and --number, standard error says so.
Status: 0 printed; 2 the arguments are not taken, or help; 1 else.

Example:
  purvilgo claims --work 1 0042.register";

/// Of `works`.
pub(crate) const WORKS_HELP: &str = "\
Reads: REGISTER, or standard input where REGISTER is -.
Writes: on standard output a header line, and a line for each work, by number; or the
register's first fault.
Columns: work, iswc, performing, mechanical, synchronization, claims. Control is what all
claims on the work have together, in hundredths of one per cent; claims is how many
current ones there are. With --plain control is in per cent, as 50.07, in columns named
performing_control and the like.
Where no work matches --work, standard error says so.
Status: 0 printed; 2 the arguments are not taken, or help; 1 else.

Example:
  purvilgo works 0042.register";

/// Of `history`.
pub(crate) const HISTORY_HELP: &str = "\
Reads: REGISTER, or standard input where REGISTER is -.
Writes: on standard output a header line, and a line for each entry, in order; or the
register's first fault.
Columns: entry, submitter, kind, number, title, iswc, performing, mechanical,
synchronization, status, work, version, faults. A fault is a record sequence, a colon and
a rule, as 4:J8. Control is in hundredths of one per cent; texts stand as the register has
them, blanks included.
Plain: texts without the blanks behind them, and with an apostrophe before what would be
taken for a formula; control in per cent, as 50.07, in columns named performing_control and
the like.
JSON: an object a line, without a header, and the first fault as that of audit --json.
--plain and --json are not taken together.
Where no entry matches the options, standard error says so.
Status: 0 printed; 2 the arguments are not taken, or help; 1 else.

Example:
  purvilgo history --status RJ 0042.register";

/// Of `summary`.
pub(crate) const SUMMARY_HELP: &str = "\
Reads: REGISTER, or standard input where REGISTER is -.
Writes: on standard output how many entries there are, and how many with each status; how
many works, current claims, and submitters of entries; for each right the works by what is
left of it; and the ten works with the most conflicts. Or the register's first fault.
Left: what the claims on a work leave of 100 per cent: none, up to 25, up to 50, more than
that, and all.
Conflicts: the most first, and of as many the lower number of the work first. A work
without any is not printed.
JSON: the same as one object, with the ten submitters with the most entries too, and the
first fault as that of audit --json.
Page: with --html what --json has as one page of HTML, with bars in its tables. Open it in
a browser; it loads nothing and runs no script. The first fault is printed as text.
Status: 0 printed; 2 the arguments are not taken, or help; 1 else.

Example:
  purvilgo summary 0042.register
  purvilgo summary --html 0042.register > 0042.html";

/// Of `verify`.
pub(crate) const VERIFY_HELP: &str = "\
Reads: REGISTER, or standard input where REGISTER is -; each FILE, and FILE.ack beside it,
or for one FILE the ACK of --ack, as a draft. Give the files in the order in which they
were run. In place of FILE those whose names --files-from LIST has, one a line, or ended by
a NUL with --null.
Writes: on standard output how many transactions of how many files are verified; or the
register's first fault, or the first FILE that does not fit, with the group and the
transaction, or the line of its acknowledgement.
Status: 0 verified; 2 the arguments are not taken, or help; 1 else.

Example:
  purvilgo verify 0042.register in/a.v22 in/b.v22";

/// Of `answer`.
pub(crate) const ANSWER_HELP: &str = "\
The entries are looked for by the calls of the file's transactions: one with the first
call, the first one behind it with the second, and so on. Without --entry they begin at the
last place from which there are some, in whatever file these transactions came: give the
register of the run that took the file. In a later one the transactions may have come again,
and then --entry N names the first entry of the file, as history counts them.

Reads: REGISTER, or standard input where REGISTER is -; FILE.
Writes: on standard output the acknowledgement, byte for byte what the run wrote that made
these entries with this society, name, date and time; on standard error why there is none,
as the first transaction that no entry answers.
Status: 0 acknowledged; 2 the arguments are not taken, or help; 1 else.

Example:
  purvilgo answer --society 007 --name 'MY SOCIETY' --date 20240601 --time 090000 \\
    0042.register in/a.v22 > again.ack";
