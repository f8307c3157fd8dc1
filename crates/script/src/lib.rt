// The script language: a command on each line, over the tables of one network and of a meter over it, if there is one.
//
// `lines` says which command a line is, `texts` puts what is printed into a lent buffer, `listing` what `show` prints and
// `paging` what `page` prints. Here `answer` does what a line asks and puts what it prints. A program over it reads lines and
// writes answers, and keeps nothing but the tables; tables of zeros, with which it begins, are unfit, so every command before a
// good `units` is refused with 2. Where no meter's table is lent, a slice of no numbers, there are no commands of a meter.
#![tactic(auto)]

pub mod answer;
