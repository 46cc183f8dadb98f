// What --help prints.
pub(crate) const HELP: &str = "\
tacbook reads a script from standard input, runs it through a new book, and prints one line for each call, then the roll.

  tacbook < SCRIPT                  run it
  tacbook --archive FILE < SCRIPT   run it, and write the roll's records to FILE, for tacsum to sum
  tacbook --help                    print this

A script has one command to a line, its words parted by spaces. Lines without words and lines that begin with # say nothing.
First comes the set-up:

  owners AREA...                    the owners' areas, 0 to 2, of owner 0, owner 1 and so on: 1 to 16
  charge volumetric K               K tenths of the areas' requirements are carried grid-wide, 0 to 10
  charge hybrid S                   S percent of the requirements are carried by load, 0 to 100; one charge is given
  layer K CAP...                    a transition layer on the charge, or on the layer before it; caps by owner in dollars,
                                    up to 60000000, 0 for an owner without a cap; caps left out are 0; up to three layers
  journal N                         room for N entries; 8192 if nothing is said
  roll N                            room for N lines; 2427 if nothing is said, the most that tacsum sums

Then come the calls. Months are 0 to 359, owners are counted from 0:

  file OWNER FIRST LAST EHV NHV LOAD PEAK
                                    an owner's yearly figures, in force from the first to the last month
  read MONTH OWNER LOAD PEAK        the meters of a month
  open MONTH                        works a month out
  post MONTH N                      bills the opening of a month at N entries, of this book or another
  withdraw MONTH N                  ends such an opening and does nothing else
  state MONTH                       whether the month is settled

What is answered:

  filed I, read I                   the number of the entry
  opened MONTH N NET...             at N entries, each owner's net in cents
  posted MONTH N, withdrawn MONTH N
  unsettled MONTH, due MONTH MARK, current MONTH MARK
                                    MARK is the count of entries at which it was billed last
  refused NUMBER [place P] [level L]
  lines COUNT                       and then each line of the roll: MONTH OWNER MARK CENTS

A set-up that is refused prints 'setup refused NUMBER' and nothing else, with status 1. A script that cannot be read is refused
before any call is made: the line and what is wrong on standard error, with status 1. Neither writes an archive.

An example, of two owners in one area:

  owners 0 0
  charge volumetric 8
  file 0 0 359 1000 200 100 10
  file 1 0 359 500 0 100 10
  read 14 0 8 1
  read 14 1 8 1
  open 14
  post 14 4
  state 14
";
