//! Worked examples: what the definitions give for replies that are written out.
//!
//! The functions here do nothing. Their contracts are the examples, and the check computes them.

ghost use Rattle.std.specs.Prelude.{◌≡◌, [], None, Some, codes, negsuc, pos};
ghost use Rattle.sw_query.specs.declared.query.Call.TheVariants.{Delete, DeleteWhere, Insert};
ghost use Rattle.sw_query.specs.declared.query.Want.TheVariants.{Count, Max, Min, Sum};
ghost use Rattle.sw_query.specs.declared.reply.Reply.TheVariants as reply;
ghost use Rattle.sw_lang.specs.PrintedExamples.{asking};
ghost use Rattle.sw_outputs.specs.Fields.{table_text};
ghost use Rattle.sw_outputs.specs.JsonLines.{reply_json};
ghost use Rattle.sw_outputs.specs.JsonReading.{reply_in};
ghost use Rattle.sw_outputs.specs.OutputExamples.{all_asked, all_four, goods, two_rows, csv_of, goods_csv, goods_json, goods_table, json_of, price_asked, two_shown};

/// Rows as JSON, as comma-separated values and as a table, and the JSON read again.
pub fn rows_shown()
    ensures json { json_of all_asked two_shown ≡ goods_json }
    ensures csv { csv_of all_asked two_shown ≡ goods_csv }
    ensures table { table_text goods all_four two_rows ≡ goods_table }
    ensures read { reply_in goods all_asked (reply_json goods all_asked two_shown) ≡ Some two_shown }
    ensures none { json_of price_asked (reply.Rows []) ≡ codes "{\"columns\":[\"key\",\"price\"],\"rows\":[]}" }
{}

/// Replies of one number, and of none.
pub fn numbers_shown()
    ensures count { json_of (asking Count) (reply.Count 2) ≡ codes "{\"count\":2}" }
    ensures sum { json_of (asking (Sum 2)) (reply.Sum (pos 725)) ≡ codes "{\"sum\":7.25}" }
    ensures least { json_of (asking (Min 2)) (reply.Least (Some (negsuc 24))) ≡ codes "{\"min\":-0.25}" }
    ensures nothing { json_of (asking (Max 1)) (reply.Least None) ≡ codes "{\"max\":null}" }
    ensures key { json_of (Insert []) (reply.Inserted 4) ≡ codes "{\"key\":4}" }
    ensures full { json_of (Insert []) reply.Full ≡ codes "{\"key\":null}" }
    ensures removed { json_of (Delete 3) reply.Removed ≡ codes "{\"removed\":1}" }
    ensures absent { json_of (Delete 9) reply.NoSuchKey ≡ codes "{\"removed\":0}" }
    ensures many { json_of (DeleteWhere []) (reply.RemovedMany 2) ≡ codes "{\"removed\":2}" }
    ensures column { csv_of (asking (Sum 2)) (reply.Sum (pos 725)) ≡ codes "sum\n7.25\n" }
    ensures empty { csv_of (asking (Max 1)) (reply.Least None) ≡ codes "max\n" }
{}
