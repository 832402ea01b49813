// The comparison among evaluated tables: specs/Tables.antt says that it is an order in which every two can be compared, specs/Tried.antt has it on some tables.
#![tactic(auto)]
